// Status, and a done read's bytes.
ghost use Rattle.std.specs.Prelude.{◌≡◌, ◌+◌, ◌<◌, ◌≤◌, length, [], IfOk, MatchResult};
ghost use Rattle.std.proofs.Math.Option.{some};
ghost use Rattle.wire.specs.Refusals.{number_of};
ghost use Rattle.wire.specs.Log.{as_span};
ghost use Rattle.bridge_rules.specs.State.{held_slot};
ghost use Rattle.bridge_rules.specs.Ending.{phase_number, ticket_number, status_of, bytes_number, slot_span, span_of, bytes_of};

use crate::search::held_slot;
use crate::soundness::sound;
use crate::state::shows;
use crate::{Bridge, DIFFERENT, DONE, Extent, GAVE_UP, Refusal};

#[tactic(auto, using(wire::proofs::Orders::order), unfolding(bridge_rules::specs::Ending::phase_number))]
fn check_phase(phase: u8) -> Result<(), Refusal>
    ensures { number_of result ≡ phase_number phase }
{
    match phase {
        DONE => Ok(()),
        GAVE_UP => Err(Refusal::GaveUp),
        DIFFERENT => Err(Refusal::Different),
        _ => Err(Refusal::NotFinished),
    }
}

// 14, 15, 16 and 18; else the ticket's slot.
#[tactic(auto, using(wire::proofs::Orders::order), unfolding(bridge_rules::specs::Ending::ticket_number))]
fn check_ticket(b: Bridge, ticket: u32) -> Result<usize, Refusal>
    ensures { (number_of result ≡ ticket_number b ticket) × IfOk result (λ k. held_slot b ticket ≡ some k) }
{
    let k = held_slot(b, ticket).ok_or(Refusal::UnknownTicket)?;
    check_phase(b.slots[k].phase)?;
    Ok(k)
}

// 0 done, 16 gave up, 18 read back different, 15 not finished; 14 where the ticket is unknown, 11 where the bridge is unsound.
#[tactic(auto, using(wire::proofs::Orders::order), unfolding(bridge_rules::specs::Ending::status_of))]
pub fn status(b: Bridge, ticket: u32) -> Result<(), Refusal>
    ensures { number_of result ≡ status_of b ticket }
{
    if !sound(b) {
        return Err(Refusal::Unsound);
    }
    check_ticket(b, ticket)?;
    Ok(())
}

// 11, 10 and status's numbers, with a buffer of length n; else the ticket's slot.
#[tactic(auto, using(wire::proofs::Orders::order), unfolding(bridge_rules::specs::Ending::bytes_number))]
fn check_bytes(b: Bridge, n: usize, ticket: u32) -> Result<usize, Refusal>
    ensures { (number_of result ≡ bytes_number b n ticket) × IfOk result (λ k. held_slot b ticket ≡ some k) }
{
    if !sound(b) {
        return Err(Refusal::Unsound);
    }
    if n != 512 {
        return Err(Refusal::MemoryLength);
    }
    check_ticket(b, ticket)
}

// Where a done transfer's bytes lie: in slot k's part of the first buffer for a read.
#[tactic(auto, unfolding(bridge_rules::specs::Ending::slot_span, bridge_rules::specs::State::slot))]
fn slot_span(b: Bridge, k: usize) -> Extent
    requires { k < 4 }
    ensures { as_span (Ok result) ≡ slot_span b k }
{
    let x = b.slots[k];
    if shows(x.kind) {
        Extent {
            start: 128 * k,
            len: x.count as usize,
        }
    } else {
        Extent { start: 0, len: 0 }
    }
}

// Where a done read's bytes lie in the first buffer, with the number of the bytes call; an empty span otherwise.
pub fn span(b: Bridge, first: &[u8], ticket: u32) -> Result<Extent, Refusal>
    ensures { (as_span result ≡ span_of b (length first.now) ticket)
        × ((as_span result).start + (as_span result).len ≤ length first.now) }
{
    let k = check_bytes(b, first.len(), ticket)?;
    Ok(slot_span(b, k))
}

// A done read's part of the first buffer, empty for a write; else 11, 10 or status's number.
pub fn bytes<'a>(b: Bridge, first: &'a [u8], ticket: u32) -> Result<&'a [u8], Refusal>
    ensures { (number_of result ≡ (bytes_of b first.now ticket).number)
        × MatchResult result (λ part. part.now ≡ (bytes_of b first.now ticket).shown)
        (λ e. [] ≡ (bytes_of b first.now ticket).shown) }
{
    let part = span(b, first, ticket)?;
    Ok(&first[part.start..part.start + part.len])
}
