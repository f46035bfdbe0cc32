// The words of a line: layer, call, numbers, changes in brackets.
ghost use Rattle.std.specs.Prelude.{◌≤◌, ◌<◌, IfSome};

use arrayvec::ArrayVec;

// Word 1 is the layer and word 2 the call. The numbers stand from 3 on, and those of changes from 12 on.
#[derive(Clone, Copy)]
pub(crate) struct Words {
    layer: [u8; 8],
    call: [u8; 8],
    numbers: [Option<u64>; 16],
}

impl Words {
    // The first eight letters of the layer's name.
    pub(crate) fn layer(&self) -> &[u8] {
        letters(&self.layer)
    }

    // The first eight letters of the call's name.
    pub(crate) fn call(&self) -> &[u8] {
        letters(&self.call)
    }

    // Number k, where there is one.
    pub(crate) fn given(&self, k: usize) -> Option<u64> {
        self.numbers.get(k).copied().flatten()
    }

    // Number k; all bits are set where there is none. The other widths have its low bits.
    pub(crate) fn u64(&self, k: usize) -> u64 {
        self.given(k).unwrap_or(u64::MAX)
    }

    pub(crate) fn u32(&self, k: usize) -> u32 {
        (self.u64(k) % (1 << 32)) as u32
    }

    pub(crate) fn u16(&self, k: usize) -> u16 {
        (self.u64(k) % (1 << 16)) as u16
    }

    pub(crate) fn u8(&self, k: usize) -> u8 {
        (self.u64(k) % (1 << 8)) as u8
    }
}

// A number at most another.
fn within(x: u64, most: usize) -> usize
    ensures { result ≤ most }
{
    most.min(x as usize)
}

// A part of bytes, as much of it as there is.
pub(crate) fn part(s: &[u8], start: u64, len: u64) -> &[u8] {
    let s = &s[within(start, s.len())..];
    &s[..within(len, s.len())]
}

// The same to be written.
pub(crate) fn room(s: &mut [u8], start: u64, len: u64) -> &mut [u8] {
    let from = within(start, s.len());
    let end = from + within(len, s.len() - from);
    &mut s[from..end]
}

// The letters after the zeros.
fn letters(word: &[u8; 8]) -> &[u8] {
    let zeros = word.iter().position(|b| *b != 0).unwrap_or(8);
    &word[zeros..]
}

// A byte as a digit.
fn digit(b: u8) -> Option<u8>
    ensures { IfSome result (λ d. d < 16) }
{
    match b {
        b'0'..=b'9' => Some(b - b'0'),
        b'a'..=b'f' => Some(b - b'a' + 10),
        _ => None,
    }
}

// A number of which all bits are set is as none.
fn some(x: u64) -> Option<u64> {
    (x != u64::MAX).then_some(x)
}

// A name and one more letter, at most eight.
fn with_letter(name: Option<u64>, b: u8) -> Option<u64> {
    match name {
        None => Some(u64::from(b)),
        Some(x) if x < 1 << 56 => some(x * 256 + u64::from(b)),
        full => full,
    }
}

// A number and one more digit, in base 10 or 16.
fn with_digit(number: Option<u64>, d: u8, hex: bool) -> Option<u64>
    requires { d < 16 }
{
    match number {
        None => Some(u64::from(d)),
        Some(x) if x < 1 << 60 => some(if hex { x * 16 } else { x * 10 } + u64::from(d)),
        full => full,
    }
}

// Word k and one more byte of it.
fn longer(word: Option<u64>, k: usize, b: u8, hex: bool) -> Option<u64> {
    if b == b' ' {
        return word;
    }
    if k < 3 {
        return with_letter(word, b);
    }
    match digit(b) {
        Some(d) => with_digit(word, d, hex),
        None => word,
    }
}

// Which word a byte belongs to: a space begins the next, and a bracket the changes.
fn word_at(k: usize, b: u8) -> usize {
    match b {
        b' ' => k % 64 + 1,
        b'[' => k.max(12),
        _ => k,
    }
}

// A number is hexadecimal after its `x`.
fn is_hex(hex: bool, b: u8) -> bool {
    match b {
        b' ' => false,
        b'x' => true,
        _ => hex,
    }
}

// The words of a text that begins with a space, names as the numbers that their letters make.
fn numbers(s: &[u8]) -> [Option<u64>; 16] {
    let mut all = [None; 16];
    let mut k: usize = 0;
    let mut hex = false;
    for b in s {
        k = word_at(k, *b);
        hex = is_hex(hex, *b);
        if k < 16 {
            all[k] = longer(all[k], k, *b, hex);
        }
    }
    all
}

pub(crate) fn words_of(s: &[u8]) -> Words {
    let numbers = numbers(s);
    Words {
        layer: numbers[1].unwrap_or(0).to_be_bytes(),
        call: numbers[2].unwrap_or(0).to_be_bytes(),
        numbers,
    }
}

// The bytes that hexadecimal digits make; what does not fit is left out.
fn from_hex(s: &[u8]) -> ArrayVec<u8, 64> {
    let mut bytes = ArrayVec::new();
    let mut high = None;
    for b in s {
        let Some(d) = digit(*b) else {
            continue;
        };
        match high {
            None => high = Some(d),
            Some(h) => {
                let _ = bytes.try_push(h * 16 + d);
                high = None;
            }
        }
    }
    bytes
}

// The bytes after a bar or the text in quotes; a text that does not fit is as many zeros.
pub(crate) fn bytes_of(s: &[u8]) -> ArrayVec<u8, 64> {
    match s {
        [b'"', text @ ..] => {
            let end = text.iter().position(|b| *b == b'"').unwrap_or(text.len());
            ArrayVec::try_from(&text[..end]).unwrap_or(ArrayVec::from([0; 64]))
        }
        _ => from_hex(s),
    }
}
