// The memory and the flash that are lent to the calls.
use crate::answers::{Answer, nothing, number, unknown};
use crate::lines::{Words, part, room};

// Sets a byte, where there is one.
fn set(s: &mut [u8], at: u64, b: u8) {
    if let Some(x) = s.get_mut(at as usize) {
        *x = b;
    }
}

// The memory with the changes of a line.
pub(crate) fn changed(memory: [u8; 4096], a: &Words) -> [u8; 4096] {
    let mut memory = memory;
    set(&mut memory, a.u64(12), a.u8(13));
    set(&mut memory, a.u64(14), a.u8(15));
    memory
}

// put PLACE | BYTES
fn put(memory: &mut [u8], at: u64, bytes: &[u8]) -> Answer {
    wire::put(memory, at as usize, bytes);
    nothing()
}

// fill PLACE LENGTH BYTE
fn fill(s: &mut [u8], b: u8) -> Answer {
    s.fill(b);
    nothing()
}

pub(crate) fn call(memory: &mut [u8], a: &Words, bytes: &[u8]) -> Answer {
    match a.call() {
        b"put" => put(memory, a.u64(3), bytes),
        b"fill" => fill(room(memory, a.u64(3), a.u64(4)), a.u8(5)),
        // show PLACE LENGTH
        b"show" => number(0).with_bytes(part(memory, a.u64(3), a.u64(4))),
        _ => unknown(),
    }
}
