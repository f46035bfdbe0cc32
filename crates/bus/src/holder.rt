// The table holder.
ghost use Rattle.std.specs.Prelude.{◌≡◌, ℕ, ◌+◌, ◌*◌, ◌≤◌, ◌<◌, List, length, take, drop, Ok};
ghost use Rattle.std.specs.Result.{IfOk};
ghost use Rattle.wire.specs.Order.{◌or_else◌};
ghost use Rattle.wire.specs.Refusals.{number_of};
ghost use Rattle.bus_rules.specs.Device.{Device, device, start_of, size_of, right_of, total_of, copy_table, directory_number, memory_number};
ghost use Rattle.bus_rules.specs.Device.{currently, known_family, sound_current, state_number, first_state_of, as_first_state, with_current};
ghost use Rattle.bus_rules.specs.Frames.{head_number};
ghost use Rattle.bus_rules.specs.Holder.{command_number, request_number, burn_number, query_number, kind_number, serve_number};
ghost use Rattle.bus_rules.specs.Holder.{read_at, request_at, size_at, right_at, table_of, reply_to, acknowledgement, protocol};
ghost use Rattle.bus_rules.specs.Holder.{act_of, act_after, serve_of, device_after};
ghost use Rattle.bus_rules.specs.Demand2.{FirstOf, Demand2};
ghost use Rattle.bus_rules.specs.Examples.{Examples};
ghost use Rattle.bus.specs.Views.{as_request_read, as_reply, as_served};
ghost use Rattle.bus.specs.Addressed.{Addresses};

use crate::frames::{build, copy_content};
use crate::requests::read_request;
use crate::rows::{Received, table_of};
use crate::{
    Answered, Asked, BURN, CMD, Directory, Frame, HolderState, Parts, REQ, RSP, Refusal, Reply,
    XTND,
};

// A table: its start (the sum of the sizes before it), its size and its right, a number as it is lent: it is looked up before it is judged.
#[derive(Clone, Copy)]
struct Table {
    start: u32,
    size: u16,
    right: u8,
}

impl Table {
    #[tactic(auto, using(wire::proofs::Orders::order), unfolding(bus_rules::specs::Holder::command_number))]
    fn check_command(self, len: u8, offset: u16) -> Result<(), Refusal>
        ensures { number_of result ≡ command_number len self.size self.right offset }
    {
        if len == 0 {
            return Err(Refusal::WrongLength);
        }
        if self.size == 0 {
            return Err(Refusal::NoTable);
        }
        if self.right != 2 {
            return Err(Refusal::NoTable);
        }
        if (self.size as u32) < offset as u32 + len as u32 {
            return Err(Refusal::PastEnd);
        }
        Ok(())
    }

    #[tactic(auto, using(wire::proofs::Orders::order), unfolding(bus_rules::specs::Holder::request_number))]
    fn check_request(self, len: u8, offset: u16, count: u8) -> Result<(), Refusal>
        ensures { number_of result ≡ request_number len self.size self.right offset count }
    {
        if len != 3 {
            return Err(Refusal::WrongLength);
        }
        if self.size == 0 {
            return Err(Refusal::NoTable);
        }
        if self.right == 0 {
            return Err(Refusal::NoTable);
        }
        if count == 0 {
            return Err(Refusal::Count);
        }
        if 8 < count {
            return Err(Refusal::Count);
        }
        if (self.size as u32) < offset as u32 + count as u32 {
            return Err(Refusal::PastEnd);
        }
        Ok(())
    }

    #[tactic(auto, using(wire::proofs::Orders::order), unfolding(bus_rules::specs::Holder::burn_number))]
    fn check_burn(self, len: u8) -> Result<(), Refusal>
        ensures { number_of result ≡ burn_number len self.size self.right }
    {
        if len != 0 {
            return Err(Refusal::WrongLength);
        }
        if self.size == 0 {
            return Err(Refusal::NoTable);
        }
        if self.right != 2 {
            return Err(Refusal::NoTable);
        }
        Ok(())
    }

    // Copied from one memory to another.
    fn copy(self, from: &[u8], to: &mut [u8])
        requires { (self.start + self.size ≤ length from.now) × (self.start + self.size ≤ length to.old) }
        ensures { (d : Directory) (k : ℕ) → self.start ≡ start_of d k → self.size ≡ size_of d k
            → to.new ≡ copy_table d k from.now to.old }
    {
        let start = self.start as usize;
        let end = start + self.size as usize;
        wire::put(to, start, &from[start..end]);
    }
}

// Table k of a directory.
fn table_at(d: Directory, k: usize) -> Table
    requires { k < 32 }
    ensures { (result.start ≡ start_of d k) × (result.size ≡ size_of d k) × (result.right ≡ right_of d k) × (result.start ≤ 65535 * k) }
{
    let mut start: u32 = 0;
    for &size in &d.sizes[..k] {
        start += size as u32;
    }
    Table {
        start,
        size: d.sizes[k],
        right: d.rights[k],
    }
}

// The sum of the sizes of a sound directory's tables; 11 for another directory. One pass without a branch: every frame pays for it.
pub fn check_directory(d: Directory) -> Result<u32, Refusal>
    ensures number { number_of result ≡ directory_number d }
    ensures total { IfOk result (λ n. n ≡ total_of d) }
{
    let mut sound = true;
    let mut total: u32 = 0;
    // By place, for both arrays at once: `zip` would test two ends.
    for i in 0..32 {
        sound = sound & (d.sizes[i] <= 2056) & (d.rights[i] <= 2);
        total += d.sizes[i] as u32;
    }
    if (d.own <= 15) & sound & (total <= 32768) {
        Ok(total)
    } else {
        Err(Refusal::Unsound)
    }
}

// 11 for an unsound directory, 10 for memory or flash of another length than its total.
pub fn check_memory(d: Directory, memory: usize, flash: usize) -> Result<(), Refusal>
    ensures { number_of result ≡ memory_number d memory flash }
{
    let total = check_directory(d)? as usize;
    if (memory != total) | (flash != total) {
        return Err(Refusal::MemoryLength);
    }
    Ok(())
}

#[tactic(auto, unfolding(bus_rules::specs::Device::known_family))]
fn known_family(family: u8) -> bool
    ensures { result ≡ known_family family }
{
    (family == 2) | (family == 3)
}

// The first state of a family: no table is current. 11 for an unknown family.
pub fn first_state(family: u8) -> Result<HolderState, Refusal>
    ensures value { as_first_state result ≡ first_state_of family }
    ensures first { FirstOf family (as_first_state result) }
{
    if !known_family(family) {
        return Err(Refusal::Unsound);
    }
    Ok(HolderState {
        family,
        has_current: 0,
        current: 0,
    })
}

// Whether no table is current, and 0 stands in its place, or one that is not empty.
fn sound_current(d: Directory, s: HolderState) -> bool
    ensures { result ≡ sound_current d s }
{
    match s.has_current {
        0 => s.current == 0,
        1 => s.current <= 31 && d.sizes[s.current as usize] != 0,
        _ => false,
    }
}

// 11 for an unsound state or directory, 10 for memory or flash of another length than the total.
fn check_device(d: Directory, s: HolderState, memory: usize, flash: usize) -> Result<(), Refusal>
    ensures { number_of result ≡ (state_number d s or_else memory_number d memory flash) }
{
    let sound = known_family(s.family) & sound_current(d, s);
    if !sound {
        return Err(Refusal::Unsound);
    }
    check_memory(d, memory, flash)
}

#[tactic(auto, using(wire::proofs::Orders::order), unfolding(bus_rules::specs::Holder::query_number))]
fn check_query(len: u8, first: u8, count: u8) -> Result<(), Refusal>
    ensures { number_of result ≡ query_number len first count }
{
    if len == 0 {
        return Err(Refusal::WrongLength);
    }
    if first != 0x80 {
        return Err(Refusal::NotServed);
    }
    if len != 4 {
        return Err(Refusal::WrongLength);
    }
    if count == 1 {
        return Ok(());
    }
    if count == 5 {
        return Ok(());
    }
    Err(Refusal::Count)
}

// 5, 6, 7, 9 and 8, by the frame's type; t is the table that the frame addresses.
fn check_kind(t: Table, x: Received) -> Result<(), Refusal>
    ensures { (e : Device) → t.size ≡ size_at e x.frame → t.right ≡ right_at e x.frame → number_of result ≡ kind_number e x.frame }
{
    let f = x.frame;
    let offset = x.parts.offset;
    match x.parts.kind {
        XTND => check_query(f.len, f.bytes[0], f.bytes[3] % 16),
        CMD => t.check_command(f.len, offset),
        REQ => t.check_request(f.len, offset, f.bytes[2] % 16),
        BURN => t.check_burn(f.len),
        _ => Err(Refusal::NotServed),
    }
}

// 1 to 9, after 11 and 10: those of the head, then those of the frame's type; t is the addressed table.
fn check_frame(own: u8, t: Table, x: Received) -> Result<(), Refusal>
    ensures { (e : Device) → t.size ≡ size_at e x.frame → t.right ≡ right_at e x.frame
        → number_of result ≡ (head_number own x.frame or_else kind_number e x.frame) }
{
    x.check_head(own)?;
    check_kind(t, x)
}

// The frame that a holder receives, and the table that it addresses.
#[derive(Clone, Copy)]
struct Addressed {
    table: Table,
    received: Received,
}

// What a frame addresses that is not refused; else 11, 10, and 1 to 9.
fn judge(
    d: Directory,
    s: HolderState,
    memory: usize,
    flash: usize,
    f: Frame,
) -> Result<Addressed, Refusal>
    ensures number { (m n : List ℕ) → length m ≡ memory → length n ≡ flash → number_of result ≡ serve_number (device d s m n) f }
    ensures addressed { IfOk result (Addresses d f) }
{
    // Looked up before the directory is judged: a processor does both at once.
    let table = table_at(d, table_of(f.id) as usize);
    check_device(d, s, memory, flash)?;
    let received = Received::new(f);
    check_frame(d.own, table, received)?;
    Ok(Addressed { table, received })
}

// The two devices that an answer goes between: the holder, and the frame's sender.
#[derive(Clone, Copy)]
struct Route {
    own: u8,
    to: u8,
    ghost in_rows: { (own ≤ 15) × (to ≤ 15) },
}

impl Route {
    // RSP, to the table and offset that the request asks for, and its mark.
    fn reply(self, q: Asked, bytes: &[u8]) -> Reply
        requires { (q.request.table ≤ 31) × (q.request.offset ≤ 2047) × (length bytes.now ≤ 8) }
        ensures { as_reply result ≡ reply_to self.own self.to (as_request_read q) bytes.now }
    {
        let parts = Parts {
            offset: q.request.offset,
            kind: RSP,
            from: self.own,
            to: self.to,
            table: q.request.table,
        };
        Reply {
            frame: build(parts, bytes),
            clear: q.clear,
        }
    }

    // The answer to a protocol query that is not refused.
    fn answer_query(self, d: Directory, f: Frame) -> Reply
        requires { (request_at f 1).count ≤ 5 }
        ensures { as_reply result ≡ reply_to self.own self.to (read_at f 1) (take (request_at f 1).count (protocol d)) }
    {
        let q = read_request(f.bytes[1], f.bytes[2], f.bytes[3]);
        let bytes = protocol_of(d);
        let n = q.request.count as usize;
        self.reply(q, &bytes[..n])
    }

    // The answer to a request that is not refused; its range starts at the place given.
    fn answer_request(self, at: usize, memory: &[u8], f: Frame) -> Reply
        requires { ((request_at f 0).count ≤ 8) × (at + (request_at f 0).count ≤ length memory.now) }
        ensures { as_reply result ≡ reply_to self.own self.to (read_at f 0) (take (request_at f 0).count (drop at memory.now)) }
    {
        let q = read_request(f.bytes[0], f.bytes[1], f.bytes[2]);
        let end = at + q.request.count as usize;
        self.reply(q, &memory[at..end])
    }

    // The answer to a BURN of this table that is not refused.
    fn acknowledge(self, table: u8) -> Reply
        requires { table ≤ 31 }
        ensures { as_reply result ≡ acknowledgement self.own self.to table }
    {
        let parts = Parts {
            offset: 0,
            kind: XTND,
            from: self.own,
            to: self.to,
            table,
        };
        Reply {
            frame: build(parts, &[0x0e, 0x01]),
            clear: false,
        }
    }
}

// 2, then the two blocking factors, high byte first.
#[tactic(auto, unfolding(bus_rules::specs::Holder::protocol))]
fn protocol_of(d: Directory) -> [u8; 5]
    ensures { result ≡ protocol d }
{
    let t = wire::two_bytes(d.table_blocking);
    let w = wire::two_bytes(d.write_blocking);
    [2, t[0], t[1], w[0], w[1]]
}

// Makes table k current, as a CMD, REQ or BURN that is not refused does: on the older family, where it was not, its bytes in memory become those in
// flash.
fn make_current(s: HolderState, t: Table, k: u8, flash: &[u8], memory: &mut [u8]) -> HolderState
    requires { (t.start + t.size ≤ length flash.now) × (t.start + t.size ≤ length memory.old) }
    ensures { (result ≡ currently s.family k) × ((d : Directory) → t.start ≡ start_of d k → t.size ≡ size_of d k
        → memory.new ≡ (with_current (device d s memory.old flash.now) k).memory) }
{
    let is_current = (s.has_current == 1) & (s.current == k);
    if (s.family == 2) & !is_current {
        t.copy(flash, memory);
    }
    HolderState {
        has_current: 1,
        current: k,
        ..s
    }
}

// What a frame that is not refused does. Its type is tested in turn: a query leaves the state, and the others first make their table current.
fn act(d: Directory, s: HolderState, a: Addressed, memory: &mut [u8], flash: &mut [u8]) -> Answered
    requires { (serve_number (device d s memory.old flash.old) a.received.frame ≡ 0) × Addresses d a.received.frame a }
    ensures { (as_served result.served ≡ act_of (device d s memory.old flash.old) a.received.frame)
        × (result.state ≡ (act_after (device d s memory.old flash.old) a.received.frame).state)
        × (memory.new ≡ (act_after (device d s memory.old flash.old) a.received.frame).memory)
        × (flash.new ≡ (act_after (device d s memory.old flash.old) a.received.frame).flash) }
{
    let Received { frame: f, parts: p } = a.received;
    let route = Route {
        own: d.own,
        to: p.from,
    };
    if p.kind == XTND {
        let served = Ok(Some(route.answer_query(d, f)));
        return Answered { served, state: s };
    }
    let state = make_current(s, a.table, p.table, &flash[..], memory);
    let at = a.table.start as usize + p.offset as usize;
    if p.kind == CMD {
        copy_content(memory, at, f);
        let served = Ok(None);
        return Answered { served, state };
    }
    if p.kind == REQ {
        let served = Ok(Some(route.answer_request(at, &memory[..], f)));
        return Answered { served, state };
    }
    a.table.copy(&memory[..], flash);
    let served = Ok(Some(route.acknowledge(p.table)));
    Answered { served, state }
}

// What the holder of these tables, which lie back to back in memory and in flash, does with a frame in this state.
pub fn serve(
    d: Directory,
    s: HolderState,
    memory: &mut [u8],
    flash: &mut [u8],
    f: Frame,
) -> Answered
    ensures served_value { (as_served result.served ≡ serve_of (device d s memory.old flash.old) f)
        × (result.state ≡ (device_after (device d s memory.old flash.old) f).state)
        × (memory.new ≡ (device_after (device d s memory.old flash.old) f).memory)
        × (flash.new ≡ (device_after (device d s memory.old flash.old) f).flash) }
    ensures demand2 { Demand2 (device d s memory.old flash.old) f (as_served result.served)
        (device d result.state memory.new flash.new) }
    ensures examples { Examples }
{
    match judge(d, s, memory.len(), flash.len(), f) {
        Ok(a) => act(d, s, a, memory, flash),
        Err(e) => Answered {
            served: Err(e),
            state: s,
        },
    }
}
