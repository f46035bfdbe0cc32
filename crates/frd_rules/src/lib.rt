// The types of FRD 1. Its rules are defined in specs/.
#![tactic(auto)]

// A header's numbers: version, time, data begin and output length.
#[derive(Clone, Copy, Debug, PartialEq, Eq)]
pub struct Header {
    pub version: u16,
    pub time: u32,
    pub begin: u32,
    pub size: u16,
}

// What stands at a place of a log: a data block, whose bytes begin at `start`, a time block, the end, or a refusal. `as_expected` says
// whether a block's counter is the number of earlier blocks, modulo 256. A refusal holds its number, and not a `Refusal`: `length_of` takes any block.
#[derive(Clone, Copy, Debug, PartialEq, Eq)]
pub enum Block {
    Data {
        counter: u8,
        start: usize,
        as_expected: bool,
    },
    Time {
        counter: u8,
        time: u32,
        as_expected: bool,
    },
    End,
    Refused {
        number: u8,
        place: usize,
    },
}
