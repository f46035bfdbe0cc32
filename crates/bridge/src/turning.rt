// A turn: every waiting slot and every rest ages, and one ready slot sends its next frame.
ghost use Rattle.std.specs.Prelude.{◌≡◌, ◌≤◌, ◌<◌, true, map, length};
ghost use Rattle.std.proofs.Math.Option.{some};
ghost use Rattle.bridge_rules.specs.State.{waiting, slot, sound, is_ready, next_ready};
ghost use Rattle.bridge_rules.specs.Answers.{both, stepped_of};
ghost use Rattle.bridge_rules.specs.Views.{as_stepped};
ghost use Rattle.bridge_rules.specs.Turn.{aged, lowered, aged_bridge, sent_slot, sent_rests, send_for, turn_of};

use crate::answers::{check_lent, refused};
use crate::progress::carried;
use crate::search::next_ready;
use crate::sending::{Buffers, Sending};
use crate::state::asks;
use crate::{After, Bridge, GAVE_UP, READY, Slot, WAITING};

// A waiting slot one turn older.
#[tactic(auto, unfolding(bridge_rules::specs::Turn::aged, bridge_rules::specs::Turn::ticked))]
fn aged(x: Slot) -> Slot
    requires { x.phase ≡ waiting }
    ensures { result ≡ aged x }
{
    if 1 < x.left {
        return Slot {
            left: x.left - 1,
            ..x
        };
    }
    let phase = if x.sends < 3 { READY } else { GAVE_UP };
    Slot {
        phase,
        left: 0,
        ..x
    }
}

// Each slot's turns left to rest, one turn on.
fn lowered(rests: [u8; 4]) -> [u8; 4]
    ensures { result ≡ map lowered rests }
{
    rests.map(|n| n.saturating_sub(1))
}

// The bridge with every waiting slot one turn older, and with every rest lowered. It starts at the slot last served only for speed: where
// it does not, and in `b.slots.map(aged)`, the compiler takes the array apart: a turn took 2.74 times that of plain C, over its goal of 2.5.
fn aged_bridge(b: Bridge) -> Bridge
    ensures { result ≡ aged_bridge b }
{
    let start = b.last as usize;
    let mut slots = b.slots;
    for i in 0..4 {
        let k = (start + i) % 4;
        if slots[k].phase == WAITING {
            slots[k] = aged(slots[k]);
        }
    }
    Bridge {
        slots,
        rests: lowered(b.rests),
        ..b
    }
}

// A slot that sent: a read, or a checked write that reads back, waits; a write is ready for the next or done, a checked write for the
// next or to read back.
#[tactic(auto, unfolding(bridge_rules::specs::Turn::sent_slot, bridge_rules::specs::Turn::requested))]
fn sent_slot(x: Slot) -> Slot
    requires { x.sends ≤ 2 }
    ensures { result ≡ sent_slot x }
{
    if asks(x.kind) {
        return Slot {
            phase: WAITING,
            sends: x.sends + 1,
            left: 20,
            ..x
        };
    }
    carried(x)
}

// Each slot's turns left to rest once slot k, which was x, has sent: slot k's is 60 if it asks, the others stay.
#[tactic(auto, unfolding(bridge_rules::specs::Turn::sent_rests))]
fn sent_rests(rests: [u8; 4], k: usize, x: Slot) -> [u8; 4]
    requires { k < 4 }
    ensures { result ≡ sent_rests rests k x }
{
    let mut after = rests;
    if asks(x.kind) {
        after[k] = 60;
    }
    after
}

// Sends for the ready slot k.
fn send_for(b: Bridge, k: usize, lent: Buffers<'_>) -> After<Option<bus::Frame>>
    requires { (sound b ≡ true) × (k < 4) × (is_ready (slot b k).phase ≡ true) }
    ensures { as_stepped result ≡ stepped_of (send_for b (both lent.entry.first.now lent.entry.second.now) (some k)) }
{
    let mut slots = b.slots;
    let x = slots[k];
    slots[k] = sent_slot(x);
    let sending = Sending {
        own: b.own,
        k,
        slot: x,
    };
    After {
        bridge: Bridge {
            slots,
            last: k as u8,
            rests: sent_rests(b.rests, k, x),
            ..b
        },
        answer: Ok(Some(sending.frame(lent))),
    }
}

// A turn that is not refused.
fn turned(b: Bridge, lent: Buffers<'_>) -> After<Option<bus::Frame>>
    requires { sound b ≡ true }
    ensures { as_stepped result ≡ stepped_of (send_for (aged_bridge b) (both lent.entry.first.now lent.entry.second.now)
        (next_ready (aged_bridge b))) }
{
    let a = aged_bridge(b);
    match next_ready(a) {
        Some(k) => send_for(a, k, lent),
        None => After {
            bridge: a,
            answer: Ok(None),
        },
    }
}

// One turn: every waiting slot and every rest ages, then the first ready slot after the one last served sends.
pub fn turn(b: Bridge, first: &[u8], second: &[u8]) -> After<Option<bus::Frame>>
    ensures { as_stepped result ≡ stepped_of (turn_of b (both first.now second.now)) }
{
    match check_lent(b, first.len(), second.len()) {
        Ok(()) => turned(b, Buffers { first, second }),
        Err(e) => refused(b, e),
    }
}
