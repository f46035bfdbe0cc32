// What a call hands back as C sees it: the paper's number, and every other number 0 in a refusal.
ghost use Rattle.std.specs.Prelude.{◌≡◌};
ghost use Rattle.wire.specs.Refusals.{number_of};
ghost use Rattle.wire.specs.Writer.{as_written};
ghost use Rattle.wire.specs.Log.{as_span, as_tally};

use crate::{Blocks, Extent, Refusal};

type Length = Result<usize, Refusal>;

type Place = Result<Extent, Refusal>;

// The number of what a writer hands back, and how many bytes it wrote.
#[repr(C)]
#[derive(Clone, Copy)]
pub struct Written {
    pub len: usize,
    pub number: u8,
}

// A part of a file or a buffer: a number, and where the part starts and how long it is.
#[repr(C)]
#[derive(Clone, Copy)]
pub struct Span {
    pub number: u8,
    pub start: usize,
    pub len: usize,
}

// How many blocks a log has, and how they ended: 0 at the file's end, else the number that refuses what stands at `place`.
#[repr(C)]
#[derive(Clone, Copy)]
pub struct Tally {
    pub blocks: u64,
    pub ending: u8,
    pub place: usize,
}

// The number that a result gives: 0 for a value.
pub fn number_of<T: Copy>(r: Result<T, Refusal>) -> u8
    ensures { result ≡ number_of r }
{
    match r {
        Ok(_) => 0,
        Err(e) => e.number(),
    }
}

impl From<Length> for Written {
    ghost from_gives = { λ r w. w ≡ as_written r };

    fn from(r: Length) -> Written {
        match r {
            Ok(len) => Written { len, number: 0 },
            Err(e) => Written {
                len: 0,
                number: e.number(),
            },
        }
    }
}

impl From<Place> for Span {
    ghost from_gives = { λ r s. s ≡ as_span r };

    fn from(r: Place) -> Span {
        match r {
            Ok(part) => Span {
                number: 0,
                start: part.start,
                len: part.len,
            },
            Err(e) => Span {
                number: e.number(),
                start: 0,
                len: 0,
            },
        }
    }
}

impl From<Blocks> for Tally {
    ghost from_gives = { λ b t. t ≡ as_tally b };

    fn from(b: Blocks) -> Tally {
        Tally {
            blocks: b.count,
            ending: number_of(b.ending),
            place: b.place,
        }
    }
}
