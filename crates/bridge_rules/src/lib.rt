// The bridge's state and answers. What its calls do to them is defined in specs/; demand 3 is specs/Run.antt to specs/Demand3.antt.
#![tactic(auto)]

mod views;

use wire::Refusal;

// A slot's phases. They and the kinds stay numbers: C may lend a slot with any, and `sound` judges it (11).
pub const FREE: u8 = 0;

pub const READY: u8 = 1;

pub const WAITING: u8 = 2;

pub const DONE: u8 = 3;

pub const GAVE_UP: u8 = 4;

pub const DIFFERENT: u8 = 5;

// A transfer's kinds. A checked write is CHECK while it sends, then READ_BACK.
pub const READ: u8 = 0;

pub const WRITE: u8 = 1;

pub const READ_BACK: u8 = 2;

pub const CHECK: u8 = 3;

// A slot: free, or held by a transfer. Numbers that it doesn't use are 0.
#[repr(C)]
#[derive(Clone, Copy, PartialEq, Eq)]
pub struct Slot {
    pub ticket: u32,
    pub offset: u16,
    pub phase: u8,
    pub kind: u8,
    pub device: u8,
    pub table: u8,
    pub count: u8,
    pub progress: u8,
    pub sends: u8,
    pub left: u8,
}

// The bridge: its slots, the last ticket given, its own number, the slot last served, and each slot's turns left to rest. Slots and rests
// stay two arrays, as C lays them out.
#[repr(C)]
#[derive(Clone, Copy)]
pub struct Bridge {
    pub slots: [Slot; 4],
    pub issued: u32,
    pub own: u8,
    pub last: u8,
    pub rests: [u8; 4],
}

// The bridge after a call, and what the call answers; a refusal hands the bridge back as it was given.
#[derive(Clone, Copy)]
pub struct After<T> {
    pub bridge: Bridge,
    pub answer: Result<T, Refusal>,
}

// What C sees of them, which the definitions and the theorems speak of.

// What an opening hands back.
#[repr(C)]
#[derive(Clone, Copy)]
pub struct Opened {
    pub bridge: Bridge,
    pub ticket: u32,
    pub number: u8,
}

// What a turn or an incoming frame answers: a number, how many frames it yields (0 or 1), and the frame, all 0 where there is none.
#[repr(C)]
#[derive(Clone, Copy)]
pub struct Yielded {
    pub number: u8,
    pub frames: u8,
    pub frame: bus_rules::Frame,
}

// What a turn or an incoming frame hands back.
#[repr(C)]
#[derive(Clone, Copy)]
pub struct Stepped {
    pub bridge: Bridge,
    pub answer: Yielded,
}

// What a closing or a reset hands back.
#[repr(C)]
#[derive(Clone, Copy)]
pub struct Changed {
    pub bridge: Bridge,
    pub number: u8,
}
