// The C library: each entry is one call of the crates below it, and promises that its answer, and what it leaves in lent memory, are the
// definition's of that call. What else the call's promise says is not said again. A result or an enum goes out as a struct.
#![tactic(auto)]

pub mod bridge_entries;
pub mod bridge_in_place;
pub mod bus_entries;
pub mod frd_entries;
pub mod mlg_entries;
pub mod value_entries;

// An identifier, and the number that refuses its parts.
#[repr(C)]
#[derive(Clone, Copy)]
pub struct Packed {
    pub id: u32,
    pub number: u8,
}

// The parts of an identifier, and the number that refuses it.
#[repr(C)]
#[derive(Clone, Copy)]
pub struct Unpacked {
    pub parts: bus::Parts,
    pub number: u8,
}

// The numbers of an MLG's header: time, info start, data begin, record length, field count, version.
#[repr(C)]
#[derive(Clone, Copy)]
pub struct MlgHeader {
    pub time: u32,
    pub info: u32,
    pub begin: u32,
    pub size: u16,
    pub count: u16,
    pub version: u16,
    pub number: u8,
}

// Kinds of blocks, which C sees as numbers.
pub const DATA: u8 = 0;

pub const MARK: u8 = 1;

pub const TIME: u8 = 1;

pub const END: u8 = 2;

pub const REFUSED: u8 = 3;

// What stands at a place of an MLG: `start` and `len` say where the record or the text lies, `as_expected` is 1 where the counter is the
// number of earlier blocks, modulo 256, and `place` is that of a refused block.
#[repr(C)]
#[derive(Clone, Copy)]
pub struct MlgBlock {
    pub place: usize,
    pub start: usize,
    pub len: usize,
    pub time: u16,
    pub number: u8,
    pub kind: u8,
    pub counter: u8,
    pub as_expected: u8,
}

// A raw value.
#[repr(C)]
#[derive(Clone, Copy)]
pub struct Raw {
    pub value: i64,
    pub number: u8,
}

// A shown value.
#[repr(C)]
#[derive(Clone, Copy)]
pub struct Shown {
    pub value: f32,
    pub number: u8,
}

// The numbers of an FRD's header: time and output length.
#[repr(C)]
#[derive(Clone, Copy)]
pub struct FrdHeader {
    pub time: u32,
    pub size: u16,
    pub number: u8,
}

// What stands at a place of an FRD, as of an MLG.
#[repr(C)]
#[derive(Clone, Copy)]
pub struct FrdBlock {
    pub place: usize,
    pub start: usize,
    pub len: usize,
    pub time: u32,
    pub number: u8,
    pub kind: u8,
    pub counter: u8,
    pub as_expected: u8,
}
