// The thin calls: turn, frame and close change the bridge in the caller's own storage.
ghost use Rattle.std.specs.Prelude.{◌≡◌};
ghost use Rattle.bridge_rules.specs.Answers.{both, stepped_of};
ghost use Rattle.bridge_rules.specs.Turn.{turn_of};
ghost use Rattle.bridge_rules.specs.Incoming.{frame_of};
ghost use Rattle.bridge_rules.specs.Ending.{close_of};

use bridge::Bridge;
use bridge_rules::Yielded;
use wire::views::number_of;

#[unsafe(no_mangle)]
pub extern "C" fn hg_bridge_turn_in_place(b: &mut Bridge, first: &[u8], second: &[u8]) -> Yielded
    ensures { (result ≡ (stepped_of (turn_of b.old (both first.now second.now))).answer)
        × (b.new ≡ (stepped_of (turn_of b.old (both first.now second.now))).bridge) }
{
    bridge::in_place::turn_in_place(b, first, second).into()
}

#[unsafe(no_mangle)]
pub extern "C" fn hg_bridge_frame_in_place(
    b: &mut Bridge,
    first: &mut [u8],
    second: &[u8],
    frame: bus::Frame,
) -> Yielded
    ensures { (result ≡ (stepped_of (frame_of b.old (both first.old second.now) frame)).answer)
        × ((b.new ≡ (stepped_of (frame_of b.old (both first.old second.now) frame)).bridge)
        × (first.new ≡ (frame_of b.old (both first.old second.now) frame).buffers.first)) }
{
    bridge::in_place::frame_in_place(b, first, second, frame).into()
}

#[unsafe(no_mangle)]
pub extern "C" fn hg_bridge_close_in_place(b: &mut Bridge, ticket: u32) -> u8
    ensures { (result ≡ (close_of b.old ticket).number) × (b.new ≡ (close_of b.old ticket).bridge) }
{
    number_of(bridge::in_place::close_in_place(b, ticket))
}
