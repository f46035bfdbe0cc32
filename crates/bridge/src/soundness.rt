// Which states are sound.
ghost use Rattle.std.specs.Prelude.{◌≡◌, cond, ◌&&◌, ◌||◌, not, leb, eqb};
ghost use Rattle.bridge_rules.specs.State.{free, asks, partway, sound_phase, sound_slot, sound_slots, sound_rests, distinct, sound};

use crate::asking::Ask;
use crate::state::{asks, blank, carries, checking, compares};
use crate::{Bridge, DIFFERENT, DONE, FREE, GAVE_UP, READY, Slot, WAITING};

// Whether a slot's progress is a multiple of 8 below its count.
fn partway(x: Slot) -> bool
    ensures { result ≡ partway x.count x.progress }
{
    x.progress % 8 == 0 && x.progress < x.count
}

// Whether a ready slot's sends are sound: a slot that asks may have two.
fn few_sends(x: Slot) -> bool
    ensures { result ≡ leb x.sends (cond (asks x.kind) 2 0) }
{
    x.sends == 0 || asks(x.kind) && x.sends <= 2
}

// Whether a held slot's progress, sends and turns left are those of its phase.
#[tactic(auto, unfolding(bridge_rules::specs::State::sound_phase))]
fn sound_phase(x: Slot) -> bool
    ensures { result ≡ sound_phase x.phase x.kind x.count x.progress x.sends x.left }
{
    match x.phase {
        READY => partway(x) && few_sends(x) && x.left == 0,
        WAITING => {
            partway(x) && asks(x.kind) && 0 < x.sends && x.sends <= 3 && 0 < x.left && x.left <= 20
        }
        DONE => !checking(x.kind) && x.progress == x.count && x.sends == 0 && x.left == 0,
        GAVE_UP => partway(x) && asks(x.kind) && x.sends == 3 && x.left == 0,
        DIFFERENT => partway(x) && compares(x.kind) && x.sends == 0 && x.left == 0,
        _ => false,
    }
}

// Whether a held slot is sound, where `issued` is the last ticket given.
#[tactic(auto, unfolding(bridge_rules::specs::State::sound_slot))]
fn sound_held(x: Slot, issued: u32) -> bool
    requires { x.phase ≡ free → ⊥ }
    ensures { result ≡ sound_slot issued x }
{
    let ask = Ask {
        device: x.device,
        table: x.table,
        offset: x.offset,
        count: x.count as usize,
    };
    (asks(x.kind) | carries(x.kind))
        && 0 < x.ticket
        && x.ticket <= issued
        && ask.check().is_ok()
        && sound_phase(x)
}

// Whether a slot is sound: a free one's numbers are 0.
#[tactic(auto, unfolding(bridge_rules::specs::State::sound_slot))]
fn sound_slot(x: &Slot, issued: u32) -> bool
    ensures { result ≡ sound_slot issued x.now }
{
    if x.phase == FREE {
        *x == blank()
    } else {
        sound_held(*x, issued)
    }
}

// Whether a slot's ticket differs from another's; 0 is none.
fn apart(x: Slot, y: Slot) -> bool
    ensures { result ≡ (eqb x.ticket 0 || not (eqb y.ticket x.ticket)) }
{
    x.ticket == 0 || y.ticket != x.ticket
}

// Whether the held slots' tickets differ: each of the six pairs, which is plainer than two loops.
fn distinct(slots: [Slot; 4]) -> bool
    ensures { result ≡ distinct slots }
{
    (apart(slots[0], slots[1]) & (apart(slots[0], slots[2]) & apart(slots[0], slots[3])))
        & ((apart(slots[1], slots[2]) & apart(slots[1], slots[3])) & apart(slots[2], slots[3]))
}

// Whether every slot is sound, and each held one has a different ticket.
fn sound_slots(slots: [Slot; 4], issued: u32) -> bool
    ensures { result ≡ (sound_slots issued slots && distinct slots) }
{
    slots.iter().all(|x| sound_slot(x, issued)) && distinct(slots)
}

// Whether each slot has at most 60 turns left to rest.
fn sound_rests(rests: [u8; 4]) -> bool
    ensures { result ≡ sound_rests rests }
{
    rests.iter().all(|n| *n <= 60)
}

// Whether a bridge is in a sound state.
pub(crate) fn sound(b: Bridge) -> bool
    ensures { result ≡ sound b }
{
    let numbers = (b.own <= 15) & (b.last <= 3) & sound_rests(b.rests);
    numbers && sound_slots(b.slots, b.issued)
}
