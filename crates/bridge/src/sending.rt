// What a ready slot sends.
ghost use Rattle.std.specs.Prelude.{◌≡◌, ◌+◌, ◌≤◌, ◌<◌, length};
ghost use Rattle.bus_rules.specs.Ident.{id_of};
ghost use Rattle.bus_rules.specs.Frames.{frame_with};
ghost use Rattle.bridge_rules.specs.Answers.{both};
ghost use Rattle.bridge_rules.specs.Turn.{read_frame, write_frame, sent_frame};

use crate::Slot;
use crate::progress::chunk_len;
use crate::state::{carries, checking};

// The two lent buffers, of lengths that a call has judged.
#[derive(Clone, Copy)]
pub(crate) struct Buffers<'a> {
    pub first: &'a [u8],
    pub second: &'a [u8],
    ghost first_length: { length first.now ≡ 512 },
    ghost second_length: { length second.now ≡ 512 },
}

// Slot k of a sound bridge of an own number, with bytes left to send.
#[derive(Clone, Copy)]
pub(crate) struct Sending {
    pub own: u8,
    pub k: usize,
    pub slot: Slot,
    ghost own_number: { own ≤ 15 },
    ghost one_of_four: { k < 4 },
    ghost device: { slot.device ≤ 15 },
    ghost table: { slot.table ≤ 31 },
    ghost unfinished: { slot.progress < slot.count },
    ghost few: { slot.count ≤ 128 },
    ghost inside: { slot.offset + slot.count ≤ 2048 },
}

impl Sending {
    // A frame for the next bytes, of a type and with these bytes.
    fn next_frame(self, kind: u8, bytes: &[u8]) -> bus::Frame
        requires { (kind ≤ 7) × (length bytes.now ≤ 8) }
        ensures { result ≡ frame_with (id_of (self.slot.offset + self.slot.progress) kind self.own self.slot.device self.slot.table) bytes.now }
    {
        let x = self.slot;
        let parts = bus::Parts {
            offset: x.offset + x.progress as u16,
            kind,
            from: self.own,
            to: x.device,
            table: x.table,
        };
        bus::frames::build(parts, bytes)
    }

    // The REQ, with its place in the buffers.
    fn read_frame(self) -> bus::Frame
        ensures { result ≡ read_frame self.own self.k self.slot }
    {
        let request = bus::Request {
            table: 6,
            count: chunk_len(self.slot),
            offset: (128 * self.k) as u16 + self.slot.progress as u16,
        };
        let three = bus::requests::request_bytes(request).unwrap();
        self.next_frame(bus::REQ, &three)
    }

    // The CMD, with the next of its bytes in a buffer.
    fn write_frame(self, buffer: &[u8]) -> bus::Frame
        requires { length buffer.now ≡ 512 }
        ensures { result ≡ write_frame self.own self.k self.slot buffer.now }
    {
        let start = 128 * self.k + self.slot.progress as usize;
        let end = start + chunk_len(self.slot) as usize;
        self.next_frame(bus::CMD, &buffer[start..end])
    }

    // What it sends: a checked write's bytes are in the second buffer.
    pub(crate) fn frame(self, lent: Buffers<'_>) -> bus::Frame
        ensures { result ≡ sent_frame self.own self.k self.slot (both lent.entry.first.now lent.entry.second.now) }
    {
        if checking(self.slot.kind) {
            return self.write_frame(lent.second);
        }
        if carries(self.slot.kind) {
            return self.write_frame(lent.first);
        }
        self.read_frame()
    }
}
