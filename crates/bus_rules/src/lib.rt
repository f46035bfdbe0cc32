// What the bus is made of. Its rules are defined in specs/.
#![tactic(auto)]

mod views;

// The types of frames: numbers, since `Parts.kind` is any number that C gives, and pack judges it.
pub const CMD: u8 = 0;

pub const REQ: u8 = 1;

pub const RSP: u8 = 2;

pub const BURN: u8 = 4;

pub const XTND: u8 = 7;

// The parts of an identifier; `kind` is its type.
#[repr(C)]
#[derive(Clone, Copy)]
pub struct Parts {
    pub offset: u16,
    pub kind: u8,
    pub from: u8,
    pub to: u8,
    pub table: u8,
}

// A frame: an identifier, a length 0..8 and eight bytes. Bytes past the length are ignored. C lends any length, and 3 refuses one over 8.
#[repr(C)]
#[derive(Clone, Copy)]
pub struct Frame {
    pub id: u32,
    pub len: u8,
    pub bytes: [u8; 8],
}

// What request bytes ask for: a count of bytes, to a table and an offset of the sender.
#[repr(C)]
#[derive(Clone, Copy)]
pub struct Request {
    pub table: u8,
    pub count: u8,
    pub offset: u16,
}

// What C sees of request bytes that are read: the request, and 1 if their reserved bits are clear, else 0.
#[repr(C)]
#[derive(Clone, Copy)]
pub struct RequestRead {
    pub request: Request,
    pub clear: u8,
}

// What C sees of request bytes that are written: a number, and the three bytes, all 0 in a refusal.
#[repr(C)]
#[derive(Clone, Copy)]
pub struct RequestBytes {
    pub number: u8,
    pub bytes: [u8; 3],
}

// A holder's directory: 32 sizes and rights (0 none, 1 read, 2 read and write), two blocking factors, and its own number.
// C lends any numbers, and 11 refuses unsound ones.
#[repr(C)]
#[derive(Clone, Copy)]
pub struct Directory {
    pub sizes: [u16; 32],
    pub rights: [u8; 32],
    pub table_blocking: u16,
    pub write_blocking: u16,
    pub own: u8,
}

// A holder's state: its family (2, the older, or 3), and its current table: `has_current` is 1 and `current` that table, or both are 0 where none is.
// C lends any numbers, and 11 refuses unsound ones.
#[repr(C)]
#[derive(Clone, Copy)]
pub struct HolderState {
    pub family: u8,
    pub has_current: u8,
    pub current: u8,
}

// What C sees of a first state: a number, and the state of a family, all 0 in a refusal.
#[repr(C)]
#[derive(Clone, Copy)]
pub struct FirstState {
    pub number: u8,
    pub state: HolderState,
}

// What C sees of a holder's answer: a number, how many frames it has (0 or 1), the mark `clear` (1 if it answers a REQ or a protocol query whose reserved
// bits are clear, else 0), and the frame, all 0 where there is none.
#[repr(C)]
#[derive(Clone, Copy)]
pub struct Served {
    pub number: u8,
    pub frames: u8,
    pub clear: u8,
    pub frame: Frame,
}

// What C sees of a holder's answer, and its state after it.
#[repr(C)]
#[derive(Clone, Copy)]
pub struct HolderAnswer {
    pub served: Served,
    pub state: HolderState,
}
