// Why a call refuses: 01's numbers handed back.
ghost use Rattle.std.specs.Prelude.{◌≡◌};
ghost use Rattle.wire.specs.Refusals.{code};

use std::error::Error;
use std::fmt;

// The refusals, each with the paper's number; 18, 19 are document 02's (C-10, C-19). No call gives 29.
#[derive(Clone, Copy, Debug, PartialEq, Eq)]
pub enum Refusal {
    HighIdentifier = 1,
    SpareBits = 2,
    FrameLength = 3,
    OtherDevice = 4,
    NotServed = 5,
    WrongLength = 6,
    NoTable = 7,
    PastEnd = 8,
    Count = 9,
    MemoryLength = 10,
    Unsound = 11,
    NoFreeSlot = 12,
    NoTicketLeft = 13,
    UnknownTicket = 14,
    NotFinished = 15,
    GaveUp = 16,
    NoReader = 17,
    Different = 18,
    SlotsRest = 19,
    CutShort = 20,
    WrongName = 21,
    Version = 22,
    Disagree = 23,
    FieldType = 24,
    BlockType = 25,
    WrongSum = 26,
    NoRoom = 27,
    WrongText = 28,
    NotShown = 30,
}

impl Refusal {
    // The paper's number.
    pub fn number(self) -> u8
        ensures { result ≡ code self }
    {
        self as u8
    }
}

impl fmt::Display for Refusal {
    fn fmt<W: fmt::Write>(&self, f: &mut fmt::Formatter<W>) -> fmt::Result {
        f.write_str(match self {
            Refusal::HighIdentifier => "identifier 2^29 or more",
            Refusal::SpareBits => "spare bits set",
            Refusal::FrameLength => "frame length over 8",
            Refusal::OtherDevice => "to another device",
            Refusal::NotServed => "type not served",
            Refusal::WrongLength => "length wrong",
            Refusal::NoTable => "table empty, or lacks the right",
            Refusal::PastEnd => "range past its end",
            Refusal::Count => "count not allowed",
            Refusal::MemoryLength => "lent memory of wrong length",
            Refusal::Unsound => "directory, state or own number unsound",
            Refusal::NoFreeSlot => "no free slot",
            Refusal::NoTicketLeft => "tickets used up",
            Refusal::UnknownTicket => "ticket unknown",
            Refusal::NotFinished => "not finished",
            Refusal::GaveUp => "gave up",
            Refusal::NoReader => "reply matches no waiting read",
            Refusal::Different => "read back different",
            Refusal::SlotsRest => "free slots all resting",
            Refusal::CutShort => "file or block cut short",
            Refusal::WrongName => "wrong name",
            Refusal::Version => "version not served",
            Refusal::Disagree => "header numbers or lengths disagree",
            Refusal::FieldType => "field type or bit count bad",
            Refusal::BlockType => "block type unknown",
            Refusal::WrongSum => "sum wrong",
            Refusal::NoRoom => "output too small",
            Refusal::WrongText => "text lacks its zero, holds a forbidden one, or is too long",
            Refusal::NotShown => "no shown value",
        })
    }
}

impl Error for Refusal {}
