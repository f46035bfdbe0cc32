// An incoming frame: the waiting slot that awaits it stores its bytes; a checked write that reads back first compares them.
ghost use Rattle.std.specs.Prelude.{◌≡◌, true, cond, not, ◌&&◌, ◌+◌, ◌*◌, ◌≤◌, ◌<◌, eqb, length, set, take, drop, IfOk};
ghost use Rattle.std.proofs.Math.Option.{some};
ghost use Rattle.wire.specs.Order.{◌if◌else◌, ◌or_else◌};
ghost use Rattle.wire.specs.Refusals.{number_of};
ghost use Rattle.wire.specs.Put.{put_of};
ghost use Rattle.bus_rules.specs.Ident.{parts_of};
ghost use Rattle.bus_rules.specs.Frames.{rsp, content};
ghost use Rattle.bridge_rules.specs.State.{sound, slot, is_waiting, is_none, with_slots};
ghost use Rattle.bridge_rules.specs.Answers.{both, stepped_of};
ghost use Rattle.bridge_rules.specs.Views.{as_stepped};
ghost use Rattle.bridge_rules.specs.Turn.{chunk_len, advanced};
ghost use Rattle.bridge_rules.specs.Incoming.{content_number, awaiting, reply_number, same_bytes, differs, differed, frame_of};

use crate::answers::{check_lent, refused};
use crate::progress::{advanced, chunk_len};
use crate::state::compares;
use crate::{After, Bridge, DIFFERENT, Refusal, Slot, WAITING};

// Whether slot k waits for a frame of these parts and this length.
fn awaits(x: Slot, k: usize, p: bus::Parts, len: u8) -> bool
    requires { k < 4 }
    ensures { result ≡ (is_waiting x.phase && eqb p.table 6 && eqb p.from x.device
        && eqb p.offset (128 * k + x.progress) && eqb len (chunk_len x.count x.progress)) }
{
    x.phase == WAITING
        && p.table == 6
        && p.from == x.device
        && p.offset as usize == 128 * k + x.progress as usize
        && len == chunk_len(x)
}

// 5 and 17, by which a frame of these parts is judged; else the slot that awaits it. Slot k's part of the buffer begins at 128 k, so the
// reply's offset says which slot to ask.
fn check_parts(b: Bridge, f: bus::Frame, p: bus::Parts) -> Result<usize, Refusal>
    requires { (sound b ≡ true) × (p ≡ parts_of f.id) }
    ensures { (number_of result ≡ (5 if not (eqb p.kind rsp) else 17 if is_none (awaiting b f) else 0))
        × IfOk result (λ k. awaiting b f ≡ some k) }
{
    if p.kind != bus::RSP {
        return Err(Refusal::NotServed);
    }
    let k = (p.offset / 128) as usize;
    if 4 <= k {
        return Err(Refusal::NoReader);
    }
    if !awaits(b.slots[k], k, p, f.len) {
        return Err(Refusal::NoReader);
    }
    Ok(k)
}

// 1 to 5 and 17, by which a sound bridge judges a frame; else its slot.
fn check_content(b: Bridge, f: bus::Frame) -> Result<usize, Refusal>
    requires { sound b ≡ true }
    ensures { (number_of result ≡ (content_number b.own f or_else (17 if is_none (awaiting b f) else 0)))
        × IfOk result (λ k. awaiting b f ≡ some k) }
{
    let p = bus::ident::read_head(b.own, f)?;
    check_parts(b, f, p)
}

// 11, 10, 1 to 5 and 17, by which an incoming frame is judged; else its slot.
fn check_reply(b: Bridge, n: usize, m: usize, f: bus::Frame) -> Result<usize, Refusal>
    ensures { (number_of result ≡ reply_number b (eqb n 512 && eqb m 512) f) × IfOk result (λ k. awaiting b f ≡ some k) }
{
    check_lent(b, n, m)?;
    check_content(b, f)
}

// Whether a frame's bytes are those that a buffer has from a place on.
fn same_bytes(f: bus::Frame, buffer: &[u8], start: usize) -> bool
    requires { (f.len ≤ 8) × (start + f.len ≤ length buffer.now) }
    ensures { result ≡ same_bytes (content f) (take f.len (drop start buffer.now)) }
{
    let n = f.len as usize;
    f.bytes[..n] == buffer[start..start + n]
}

// Whether slot k's reply brings other bytes than a checked write sent: those that the second buffer has at the same place.
#[tactic(auto, unfolding(bridge_rules::specs::Incoming::differs))]
fn differs(k: usize, x: Slot, second: &[u8], f: bus::Frame) -> bool
    requires { (k < 4) × (f.len ≤ 8) × (128 * k + x.progress + f.len ≤ length second.now) }
    ensures { result ≡ differs k x second.now f }
{
    compares(x.kind) && !same_bytes(f, second, 128 * k + x.progress as usize)
}

// Slot k takes its reply: the bytes are stored, and it is ready for the next or done. A checked write that reads back ends as different at
// bytes that it did not send, and these are not stored.
#[inline(always)]
fn taken(b: Bridge, k: usize, first: &mut [u8], second: &[u8], f: bus::Frame) -> Bridge
    requires { (k < 4) × (f.len ≤ 8) × (128 * k + (slot b k).progress + f.len ≤ length second.now) }
    ensures { (result ≡ with_slots b (set b.slots k
        (cond (differs k (slot b k) second.now f) (differed (slot b k)) (advanced (slot b k)))))
        × (first.new ≡ cond (differs k (slot b k) second.now f) first.old
        (put_of first.old (128 * k + (slot b k).progress) (content f))) }
{
    let mut slots = b.slots;
    let x = slots[k];
    if differs(k, x, second, f) {
        slots[k] = Slot {
            phase: DIFFERENT,
            sends: 0,
            left: 0,
            ..x
        };
        return Bridge { slots, ..b };
    }
    bus::frames::put_content(first, 128 * k + x.progress as usize, f);
    slots[k] = advanced(x);
    Bridge { slots, ..b }
}

// An incoming frame: 17 where no waiting slot awaits it; else that slot takes it. It yields no frame; C gets the same struct as of a turn. (It stands in
// its callers, for less stack.)
#[inline(always)]
pub fn frame(b: Bridge, first: &mut [u8], second: &[u8], f: bus::Frame) -> After<Option<bus::Frame>>
    ensures { (as_stepped result ≡ stepped_of (frame_of b (both first.old second.now) f))
        × (first.new ≡ (frame_of b (both first.old second.now) f).buffers.first) }
{
    match check_reply(b, first.len(), second.len(), f) {
        Ok(k) => After {
            bridge: taken(b, k, first, second, f),
            answer: Ok(None),
        },
        Err(e) => refused(b, e),
    }
}
