// How a transfer goes on: eight bytes a frame, the last fewer.
ghost use Rattle.std.specs.Prelude.{◌≡◌};
ghost use Rattle.bridge_rules.specs.Turn.{chunk_len, advanced, read_back, carried};

use crate::state::checking;
use crate::{DONE, READ_BACK, READY, Slot};

// How many bytes a slot's next frame asks for or carries: eight, the last fewer; 0 where nothing is left.
#[tactic(auto, unfolding(bridge_rules::specs::Turn::chunk_len))]
pub(crate) fn chunk_len(x: Slot) -> u8
    ensures { result ≡ chunk_len x.count x.progress }
{
    x.count.saturating_sub(x.progress).min(8)
}

// A slot past the current eight bytes: ready for the next, or done.
#[tactic(auto, unfolding(bridge_rules::specs::Turn::advanced))]
pub(crate) fn advanced(x: Slot) -> Slot
    ensures { result ≡ advanced x }
{
    let next = x.progress as u32 + 8;
    Slot {
        phase: if next < x.count as u32 { READY } else { DONE },
        progress: next.min(x.count as u32) as u8,
        sends: 0,
        left: 0,
        ..x
    }
}

// A checked write that sent its last bytes is ready to read them back.
#[tactic(auto, unfolding(bridge_rules::specs::Turn::read_back))]
fn read_back(x: Slot) -> Slot
    ensures { result ≡ read_back x }
{
    Slot {
        kind: READ_BACK,
        phase: READY,
        progress: 0,
        sends: 0,
        left: 0,
        ..x
    }
}

// A slot that sent its CMD: past those bytes, or ready to read back.
#[tactic(auto, unfolding(bridge_rules::specs::Turn::carried))]
pub(crate) fn carried(x: Slot) -> Slot
    ensures { result ≡ carried x }
{
    if checking(x.kind) && x.count as u32 <= x.progress as u32 + 8 {
        return read_back(x);
    }
    advanced(x)
}
