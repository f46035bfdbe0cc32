// What every layer shares: refusals in an order (specs/), numbers in bytes, signed numbers, sums, texts, counters, copying into lent memory.
#![tactic(auto)]

pub mod refusal;
pub mod views;

ghost use Rattle.std.specs.Prelude.{◌≡◌, ◌+◌, ◌*◌, ◌^◌, ◌<◌, ◌≤◌, length, take, position, nat_eq};
ghost use Rattle.wire.specs.BigEndian.{be_of, be_at, be_bytes};
ghost use Rattle.wire.specs.Sign.{signed_of, twos};
ghost use Rattle.wire.specs.Sum.{sum_of};
ghost use Rattle.wire.specs.Text.{text_len};
ghost use Rattle.wire.specs.Log.{counter_after};
ghost use Rattle.wire.specs.Counters.{Rolling, CounterExamples};
ghost use Rattle.wire.specs.Put.{put_at, put_of};

pub use refusal::Refusal;
pub use views::{Span, Tally, Written};

// A part of a file or a buffer: where it starts, and how long it is.
#[derive(Clone, Copy, Debug, PartialEq, Eq)]
pub struct Extent {
    pub start: usize,
    pub len: usize,
}

// How many blocks a log has, and how they ended: at the file's end, or with the refusal of what stands at `place`.
#[derive(Clone, Copy, Debug, PartialEq, Eq)]
pub struct Blocks {
    pub count: u64,
    pub ending: Result<(), Refusal>,
    pub place: usize,
}

fn be_of(s: &[u8]) -> u64
    requires { length s.now ≤ 8 }
    ensures { (result ≡ be_of s.now) × (result < 2 ^ (8 * length s.now)) }
{
    let mut a = 0;
    for &b in s {
        a = a * 256 + u64::from(b);
    }
    a
}

fn be_at(s: &[u8], at: usize, n: usize) -> u64
    requires { n ≤ 8 }
    ensures { (result ≡ be_at n s.now at) × (result < 2 ^ (8 * n)) }
{
    if s.len() <= at {
        return 0;
    }
    if s.len() - at < n {
        return be_of(&s[at..]);
    }
    be_of(&s[at..at + n])
}

// The number in the two bytes from a place, or in those of them that are there. It and the next two are one function, `be_at`, at their widths:
// a trait over the types would need an impl as long as each of them.
pub fn be16(s: &[u8], at: usize) -> u16
    ensures { result ≡ be_at 2 s.now at }
{
    be_at(s, at, 2) as u16
}

// In four bytes.
pub fn be32(s: &[u8], at: usize) -> u32
    ensures { result ≡ be_at 4 s.now at }
{
    be_at(s, at, 4) as u32
}

// In six bytes.
pub fn be48(s: &[u8], at: usize) -> u64
    ensures { result ≡ be_at 6 s.now at }
{
    be_at(s, at, 6)
}

// The number that the first eight bytes make, or all where there are fewer.
pub fn number(s: &[u8]) -> u64
    ensures { result ≡ be_of (take 8 s.now) }
{
    be_at(s, 0, 8)
}

// A number in two bytes, high byte first. Two literals, here and below, are plainer than one loop over a width and its invariant.
pub fn two_bytes(x: u16) -> [u8; 2]
    ensures { result ≡ be_bytes 2 x }
{
    [(x / 256 % 256) as u8, (x % 256) as u8]
}

// A number in four bytes.
pub fn four_bytes(x: u32) -> [u8; 4]
    ensures { result ≡ be_bytes 4 x }
{
    [
        (x / 256 / 256 / 256 % 256) as u8,
        (x / 256 / 256 % 256) as u8,
        (x / 256 % 256) as u8,
        (x % 256) as u8,
    ]
}

// Two's complement: half is a power of two, and x is below twice that.
fn signed(x: u64, half: u64) -> i64
    requires { (half ≤ 2 ^ 63) × (x < 2 * half) }
    ensures { result ≡ twos half x }
{
    if x < half {
        x as i64
    } else {
        -1 - ((half - 1 - (x - half)) as i64)
    }
}

// The signed number of 8 bits, and so at 16, 32 and 64: one function, `signed`, at the types of these widths; 01 names them one by one.
pub fn s08(x: u8) -> i64
    ensures { result ≡ signed_of 8 x }
{
    signed(x as u64, 128)
}

pub fn s16(x: u16) -> i64
    ensures { result ≡ signed_of 16 x }
{
    signed(x as u64, 32768)
}

pub fn s32(x: u32) -> i64
    ensures { result ≡ signed_of 32 x }
{
    signed(x as u64, 2147483648)
}

pub fn s64(x: u64) -> i64
    ensures { result ≡ signed_of 64 x }
{
    signed(x, 9223372036854775808)
}

// The sum of the bytes, modulo 256.
pub fn sum_of(s: &[u8]) -> u8
    ensures { result ≡ sum_of s.now }
{
    let mut t: u8 = 0;
    for &b in s {
        t = t.wrapping_add(b);
    }
    t
}

fn first_zero(s: &[u8]) -> Option<usize>
    ensures { result ≡ position (λ b. nat_eq b 0) s.now }
{
    s.iter().position(|b| *b == 0)
}

// How many bytes stand before the first zero.
pub fn text_len(s: &[u8]) -> usize
    ensures { result ≡ text_len s.now }
{
    first_zero(s).unwrap_or(s.len())
}

// The counter of a block after the given number of earlier blocks, in an MLG and in an FRD.
pub fn counter_after(earlier: u64) -> u8
    ensures value { result ≡ counter_after earlier }
    ensures rolling { Rolling }
    ensures examples { CounterExamples }
{
    (earlier % 256) as u8
}

// Copies bytes to a place. (By place, and not by the library's copy, which calls memmove: of C's library the archive needs memcpy alone.)
fn copy(out: &mut [u8], at: usize, bytes: &[u8])
    requires { at + length bytes.now ≤ length out.old }
    ensures { out.new ≡ put_at out.old at bytes.now }
{
    for i in 0..bytes.len() {
        out[at + i] = bytes[i];
    }
}

// Puts bytes at a place of the output; nothing changes where they do not fit.
pub fn put(out: &mut [u8], at: usize, bytes: &[u8])
    ensures { out.new ≡ put_of out.old at bytes.now }
{
    if out.len() < at {
        return;
    }
    if out.len() - at < bytes.len() {
        return;
    }
    copy(out, at, bytes);
}
