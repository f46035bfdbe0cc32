// A bridge and its slots.
ghost use Rattle.std.specs.Prelude.{◌≡◌, ◌<◌, set};
ghost use Rattle.bridge_rules.specs.State.{asks, carries, checking, compares, shows, blank, fresh, with_slots};

use crate::{Bridge, CHECK, FREE, READ, READ_BACK, Slot, WRITE};

// A slot of this kind sends REQ and may wait.
#[tactic(auto, unfolding(bridge_rules::specs::State::asks))]
pub(crate) fn asks(kind: u8) -> bool
    ensures { result ≡ asks kind }
{
    kind == READ || kind == READ_BACK
}

// A slot of this kind sends CMD.
#[tactic(auto, unfolding(bridge_rules::specs::State::carries))]
pub(crate) fn carries(kind: u8) -> bool
    ensures { result ≡ carries kind }
{
    kind == WRITE || kind == CHECK
}

// It carries the second buffer's bytes, and reads back what it sent.
#[tactic(auto, unfolding(bridge_rules::specs::State::checking))]
pub(crate) fn checking(kind: u8) -> bool
    ensures { result ≡ checking kind }
{
    kind == CHECK
}

// Its replies are compared with what it sent.
#[tactic(auto, unfolding(bridge_rules::specs::State::compares))]
pub(crate) fn compares(kind: u8) -> bool
    ensures { result ≡ compares kind }
{
    kind == READ_BACK
}

// Its bytes are shown.
#[tactic(auto, unfolding(bridge_rules::specs::State::shows))]
pub(crate) fn shows(kind: u8) -> bool
    ensures { result ≡ shows kind }
{
    kind == READ
}

// A free slot.
pub(crate) fn blank() -> Slot
    ensures { result ≡ blank }
{
    Slot {
        ticket: 0,
        offset: 0,
        phase: FREE,
        kind: 0,
        device: 0,
        table: 0,
        count: 0,
        progress: 0,
        sends: 0,
        left: 0,
    }
}

// The fresh bridge of an own number: its search starts at slot 0.
#[tactic(auto, unfolding(bridge_rules::specs::State::fresh))]
pub(crate) fn fresh(own: u8) -> Bridge
    ensures { result ≡ fresh own }
{
    Bridge {
        slots: [blank(); 4],
        issued: 0,
        own,
        last: 3,
        rests: [0; 4],
    }
}

// The bridge with another slot k.
pub(crate) fn with_slot(b: Bridge, k: usize, x: Slot) -> Bridge
    requires { k < 4 }
    ensures { result ≡ with_slots b (set b.slots k x) }
{
    let mut slots = b.slots;
    slots[k] = x;
    Bridge { slots, ..b }
}
