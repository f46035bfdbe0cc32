// The types of an MLG file: its layout, header, fields and blocks. Its rules are defined in specs/; what is written is read back:
// specs/RoundTrip.antt.
#![tactic(auto)]

// Bytes of a header, of the info start in it, and of a field.
#[derive(Clone, Copy, Debug, PartialEq, Eq)]
pub struct Layout {
    pub header: usize,
    pub info: usize,
    pub field: usize,
}

// A field's scale and transform.
#[repr(C)]
#[derive(Clone, Copy)]
pub struct Scaling {
    pub scale: f32,
    pub transform: f32,
}

// The numbers of a header: version, time, info start, data begin, record length, field count.
#[derive(Clone, Copy, Debug, PartialEq, Eq)]
pub struct Header {
    pub version: u16,
    pub time: u32,
    pub info: u32,
    pub begin: u32,
    pub size: u16,
    pub count: u16,
}

// What stands at a place of a log. `start` is the place of the record or text, `as_expected` whether the counter is the number of earlier
// blocks, modulo 256; `len` is the text's length before its zero; a record has the length that the call was given. A refusal holds its number, and
// not a `Refusal`: `length_of` takes any block.
#[derive(Clone, Copy, Debug, PartialEq, Eq)]
pub enum Block {
    Data {
        counter: u8,
        time: u16,
        start: usize,
        as_expected: bool,
    },
    Mark {
        counter: u8,
        time: u16,
        start: usize,
        len: usize,
        as_expected: bool,
    },
    End,
    Refused {
        number: u8,
        place: usize,
    },
}
