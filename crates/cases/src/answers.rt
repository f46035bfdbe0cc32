// What a call answers, and how it is printed: ` =`, numbers, a block's kind, an identifier or bits after `0x`, bytes after a bar or a text
// in quotes.
use crate::lines::part;
use arrayvec::ArrayVec;
use print::Page;
use wire::Refusal;
use wire::views::number_of;

// What a block is.
#[derive(Clone, Copy)]
pub(crate) enum Kind {
    Data,
    Mark,
    Time,
    End,
}

impl Kind {
    // Its word after a space, one piece.
    fn word(self) -> &'static [u8] {
        match self {
            Kind::Data => b" data",
            Kind::Mark => b" mark",
            Kind::Time => b" time",
            Kind::End => b" end",
        }
    }
}

// The bytes that an answer ends with, as digits or as text.
#[derive(Drop)]
enum Shown {
    Bytes(ArrayVec<u8, 56>),
    Text(ArrayVec<u8, 56>),
}

// The first number is 01's. A heading's answer has none, and is not printed.
#[derive(Drop)]
pub(crate) struct Answer {
    numbers: ArrayVec<u64, 8>,
    kind: Option<Kind>,
    hex: Option<u32>,
    shown: Shown,
}

// The first 56 bytes.
fn first(s: &[u8]) -> ArrayVec<u8, 56> {
    let mut bytes = ArrayVec::new();
    let _ = bytes.try_extend_from_slice(part(s, 0, 56));
    bytes
}

// At most eight numbers.
pub(crate) fn numbers(given: &[u64]) -> Answer {
    let mut numbers = ArrayVec::new();
    let _ = numbers.try_extend_from_slice(given);
    Answer {
        numbers,
        kind: None,
        hex: None,
        shown: Shown::Bytes(ArrayVec::new()),
    }
}

// A heading's answer.
pub(crate) fn nothing() -> Answer {
    numbers(&[])
}

// The answer to a call that is not there.
pub(crate) fn unknown() -> Answer {
    number(255)
}

pub(crate) fn number(n: u8) -> Answer {
    numbers(&[u64::from(n)])
}

pub(crate) fn refused(e: Refusal) -> Answer {
    number(e.number())
}

// The number of a result, 0 for a value, and the value, 0 in a refusal.
pub(crate) fn pair(r: Result<u64, Refusal>) -> Answer {
    numbers(&[u64::from(number_of(r)), r.unwrap_or(0)])
}

impl Answer {
    pub(crate) fn with_kind(self, kind: Kind) -> Answer {
        Answer {
            kind: Some(kind),
            ..self
        }
    }

    pub(crate) fn with_hex(self, hex: u32) -> Answer {
        Answer {
            hex: Some(hex),
            ..self
        }
    }

    // With bytes, at most 56 of them.
    pub(crate) fn with_bytes(self, s: &[u8]) -> Answer {
        Answer {
            shown: Shown::Bytes(first(s)),
            ..self
        }
    }

    pub(crate) fn with_text(self, s: &[u8]) -> Answer {
        Answer {
            shown: Shown::Text(first(s)),
            ..self
        }
    }

    pub(crate) fn has_hex(&self) -> bool {
        self.hex.is_some()
    }

    // Puts the answer and the end of the line.
    pub(crate) fn put(&self, page: &mut Page) {
        if !self.numbers.is_empty() {
            page.text(b" =");
            put_numbers(page, self.numbers.as_slice());
            put_kind(page, self.kind);
            put_hex(page, self.hex);
            put_shown(page, &self.shown);
        }
        page.byte(b'\n');
    }
}

fn put_numbers(page: &mut Page, numbers: &[u64]) {
    for x in numbers {
        page.byte(b' ');
        page.decimal(*x);
    }
}

fn put_kind(page: &mut Page, kind: Option<Kind>) {
    if let Some(kind) = kind {
        page.text(kind.word());
    }
}

fn put_hex(page: &mut Page, hex: Option<u32>) {
    if let Some(x) = hex {
        page.text(b" 0x");
        page.hex(u64::from(x), 1);
    }
}

fn put_bytes(page: &mut Page, s: &[u8]) {
    if !s.is_empty() {
        page.text(b" |");
        page.bytes(s);
    }
}

fn put_text(page: &mut Page, s: &[u8]) {
    page.text(b" \"");
    page.text(s);
    page.byte(b'"');
}

fn put_shown(page: &mut Page, shown: &Shown) {
    match shown {
        Shown::Bytes(s) => put_bytes(page, s.as_slice()),
        Shown::Text(s) => put_text(page, s.as_slice()),
    }
}
