// Opening a read, a write or a checked write.
ghost use Rattle.std.specs.Prelude.{◌≡◌, ◌+◌, ◌≤◌, ◌<◌, ◌&&◌, set, eqb, IfOk};
ghost use Rattle.std.proofs.Math.Option.{some};
ghost use Rattle.wire.specs.Refusals.{number_of};
ghost use Rattle.bridge_rules.specs.State.{of_kind, lowest_givable};
ghost use Rattle.bridge_rules.specs.Answers.{both, opened_of};
ghost use Rattle.bridge_rules.specs.Views.{as_opened};
ghost use Rattle.bridge_rules.specs.Opening.{read, write, check, room_number, open_number, opened, open_of};

use crate::answers::{check_lent, refused};
use crate::asking::Ask;
use crate::search::{lowest_free, lowest_givable};
use crate::state::with_slot;
use crate::{After, Bridge, CHECK, READ, READY, Refusal, Slot, WRITE};

// 12, 19 and 13: no free slot, free slots that all rest, and tickets used up; else the slot that an opening takes.
#[tactic(auto, using(wire::proofs::Orders::order), unfolding(bridge_rules::specs::Opening::room_number))]
fn check_room(b: Bridge) -> Result<usize, Refusal>
    ensures { (number_of result ≡ room_number b) × IfOk result (λ k. lowest_givable b ≡ some k) }
{
    if lowest_free(b).is_none() {
        return Err(Refusal::NoFreeSlot);
    }
    let k = lowest_givable(b).ok_or(Refusal::SlotsRest)?;
    if 4294967295 <= b.issued {
        return Err(Refusal::NoTicketLeft);
    }
    Ok(k)
}

// 11, 10, 7, 9, 8, 12, 19, 13, by which an opening judges the bridge, buffers of lengths n and m, and what is asked; else the slot that it
// takes.
#[tactic(auto, using(wire::proofs::Orders::order), unfolding(bridge_rules::specs::Opening::open_number))]
fn check_open(b: Bridge, n: usize, m: usize, ask: Ask) -> Result<usize, Refusal>
    ensures { (number_of result ≡ open_number b (eqb n 512 && eqb m 512) (read ask.device ask.table ask.offset ask.count))
        × IfOk result (λ k. lowest_givable b ≡ some k) }
{
    check_lent(b, n, m)?;
    ask.check()?;
    check_room(b)
}

// Slot k begins a transfer of this kind, with the next ticket.
#[tactic(auto, unfolding(bridge_rules::specs::Opening::opened))]
fn begun(b: Bridge, k: usize, kind: u8, ask: Ask) -> After<u32>
    requires { (k < 4) × (b.issued < 4294967295) × (ask.count ≤ 128) }
    ensures { result ≡ record {
      bridge = record {
        slots = set b.slots k (of_kind kind (opened (read ask.device ask.table ask.offset ask.count) (b.issued + 1)));
        issued = b.issued + 1;
        own = b.own;
        last = b.last;
        rests = b.rests;
      };
      answer = Ok (b.issued + 1);
    } }
{
    let ticket = b.issued + 1;
    let x = Slot {
        ticket,
        offset: ask.offset,
        phase: READY,
        kind,
        device: ask.device,
        table: ask.table,
        count: ask.count as u8,
        progress: 0,
        sends: 0,
        left: 0,
    };
    After {
        bridge: Bridge {
            issued: ticket,
            ..with_slot(b, k, x)
        },
        answer: Ok(ticket),
    }
}

// Opens a read of a count of bytes.
pub fn open_read(
    b: Bridge,
    first: &[u8],
    second: &[u8],
    device: u8,
    table: u8,
    offset: u16,
    count: usize,
) -> After<u32>
    ensures { as_opened result ≡ opened_of (open_of b (both first.now second.now) (read device table offset count)) }
{
    let ask = Ask {
        device,
        table,
        offset,
        count,
    };
    match check_open(b, first.len(), second.len(), ask) {
        Ok(k) => begun(b, k, READ, ask),
        Err(e) => refused(b, e),
    }
}

// Opens a write of bytes, which are copied into its slot's part of the first buffer.
pub fn open_write(
    b: Bridge,
    first: &mut [u8],
    second: &[u8],
    device: u8,
    table: u8,
    offset: u16,
    bytes: &[u8],
) -> After<u32>
    ensures { (as_opened result ≡ opened_of (open_of b (both first.old second.now)
        (write device table offset bytes.now)))
        × (first.new ≡ (open_of b (both first.old second.now)
        (write device table offset bytes.now)).buffers.first) }
{
    let ask = Ask {
        device,
        table,
        offset,
        count: bytes.len(),
    };
    match check_open(b, first.len(), second.len(), ask) {
        Ok(k) => {
            wire::put(first, 128 * k, bytes);
            begun(b, k, WRITE, ask)
        }
        Err(e) => refused(b, e),
    }
}

// Opens a checked write of bytes, which are copied into its slot's part of the second buffer. It stays beside `open_write`, since C calls
// both and lends each another buffer to change; what they share is `check_open` and `begun`.
pub fn open_check(
    b: Bridge,
    first: &[u8],
    second: &mut [u8],
    device: u8,
    table: u8,
    offset: u16,
    bytes: &[u8],
) -> After<u32>
    ensures { (as_opened result ≡ opened_of (open_of b (both first.now second.old)
        (check device table offset bytes.now)))
        × (second.new ≡ (open_of b (both first.now second.old)
        (check device table offset bytes.now)).buffers.second) }
{
    let ask = Ask {
        device,
        table,
        offset,
        count: bytes.len(),
    };
    match check_open(b, first.len(), second.len(), ask) {
        Ok(k) => {
            wire::put(second, 128 * k, bytes);
            begun(b, k, CHECK, ask)
        }
        Err(e) => refused(b, e),
    }
}
