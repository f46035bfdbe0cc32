// Raw and shown values of fields, and sums.
use crate::answers::{Answer, number, numbers, pair, refused, unknown};
use crate::lines::{Words, part};

// A field of a type, with four bytes at 46 and four at 50.
fn field_of(kind: u8, scale: u32, transform: u32) -> [u8; 89] {
    let mut f = [0u8; 89];
    f[0] = kind;
    f[46..50].copy_from_slice(&scale.to_be_bytes());
    f[50..54].copy_from_slice(&transform.to_be_bytes());
    f
}

// raw_value TYPE BITS LENGTH GIVEN | RAW: the number, and 1 where the value is the given one, 64 bits in two's complement.
fn raw_value(field: &[u8], bytes: &[u8], given: u64) -> Answer {
    match mlg_values::raw_value(field, bytes) {
        Ok(x) => pair(Ok(u64::from(x == wire::s64(given)))),
        Err(e) => refused(e),
    }
}

// How often 1 can be taken from x, at most 100,000 times.
fn whole(x: f32) -> u64 {
    let mut left = x;
    for n in 0..100000 {
        if left < 1.0 {
            return n;
        }
        left -= 1.0;
    }
    100000
}

// The bits of a value below 100,000.
fn bits(x: f32) -> u32 {
    if x < 100000.0 { x.to_bits() } else { 0 }
}

// Number 0, 1 where a value is negative, its whole part without the sign, and its bits.
fn shown(x: f32) -> Answer {
    let (negative, size) = if x < 0.0 { (1, -x) } else { (0, x) };
    numbers(&[0, negative, whole(size)]).with_hex(bits(x))
}

// shown_value TYPE SCALE TRANSFORM | RAW: the value shown, or the number.
fn shown_value(field: &[u8], bytes: &[u8]) -> Answer {
    match mlg_values::shown_value(field, bytes) {
        Ok(x) => shown(x),
        Err(e) => refused(e),
    }
}

// A field of a type with so many bits, as the first bytes of it.
fn raw_case(a: &Words, bytes: &[u8]) -> Answer {
    let mut f = field_of(a.u8(3), 0, 0);
    f[51] = a.u8(4);
    raw_value(part(&f, 0, a.u64(5)), bytes, a.u64(6))
}

pub(crate) fn call(a: &Words, bytes: &[u8]) -> Answer {
    match a.call() {
        b"raw_valu" => raw_case(a, bytes),
        b"shown_va" => shown_value(&field_of(a.u8(3), a.u32(4), a.u32(5)), bytes),
        // sum_of | RECORD: the sum.
        b"sum_of" => number(wire::sum_of(bytes)),
        _ => unknown(),
    }
}
