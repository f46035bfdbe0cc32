// The thin calls: turn, frame and close change the bridge in the caller's own storage.
ghost use Rattle.std.specs.Prelude.{◌≡◌};
ghost use Rattle.wire.specs.Refusals.{number_of};
ghost use Rattle.bridge_rules.specs.Answers.{both, stepped_of};
ghost use Rattle.bridge_rules.specs.Views.{as_yielded};
ghost use Rattle.bridge_rules.specs.Turn.{turn_of};
ghost use Rattle.bridge_rules.specs.Incoming.{frame_of};
ghost use Rattle.bridge_rules.specs.Ending.{close_of};

use crate::ending::close;
use crate::incoming::frame;
use crate::turning::turn;
use crate::{Bridge, Refusal};

// A turn.
pub fn turn_in_place(
    b: &mut Bridge,
    first: &[u8],
    second: &[u8],
) -> Result<Option<bus::Frame>, Refusal>
    ensures { (as_yielded result ≡ (stepped_of (turn_of b.old (both first.now second.now))).answer)
        × (b.new ≡ (stepped_of (turn_of b.old (both first.now second.now))).bridge) }
{
    let after = turn(*b, first, second);
    *b = after.bridge;
    after.answer
}

// An incoming frame.
pub fn frame_in_place(
    b: &mut Bridge,
    first: &mut [u8],
    second: &[u8],
    f: bus::Frame,
) -> Result<Option<bus::Frame>, Refusal>
    ensures { (as_yielded result ≡ (stepped_of (frame_of b.old (both first.old second.now) f)).answer)
        × ((b.new ≡ (stepped_of (frame_of b.old (both first.old second.now) f)).bridge)
        × (first.new ≡ (frame_of b.old (both first.old second.now) f).buffers.first)) }
{
    let after = frame(*b, first, second, f);
    *b = after.bridge;
    after.answer
}

// A closing.
pub fn close_in_place(b: &mut Bridge, ticket: u32) -> Result<(), Refusal>
    ensures { (number_of result ≡ (close_of b.old ticket).number) × (b.new ≡ (close_of b.old ticket).bridge) }
{
    let after = close(*b, ticket);
    *b = after.bridge;
    after.answer
}
