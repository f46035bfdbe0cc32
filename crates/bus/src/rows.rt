// The parts of any identifier, and the identifier of any parts, by sums, products, quotients and remainders.
ghost use Rattle.std.specs.Prelude.{◌≡◌};
ghost use Rattle.bus_rules.specs.Ident.{id_table, id_in, in_rows, parts_of};

use crate::{Frame, Parts};

#[tactic(auto, unfolding(bus_rules::specs::Ident::id_table))]
pub(crate) fn table_of(id: u32) -> u8
    ensures { result ≡ id_table id }
{
    (id / 4 % 2 * 16 + id / 8 % 16) as u8
}

pub(crate) fn parts_of(id: u32) -> Parts
    ensures { result ≡ parts_of id }
{
    Parts {
        offset: (id / 262144 % 2048) as u16,
        kind: (id / 32768 % 8) as u8,
        from: (id / 2048 % 16) as u8,
        to: (id / 128 % 16) as u8,
        table: table_of(id),
    }
}

// The sum of each row's part, modulo 2 to the row's width, times 2 to the row's lowest bit. Receiver and sender lie side by side, and make a
// byte together, at bit 7: so the sum is short enough to be inlined.
pub(crate) fn id_in_rows(p: Parts) -> u32
    ensures { result ≡ id_in (in_rows p) }
{
    (p.table / 16 % 2 * 4 + p.table % 16 * 8) as u32
        + (p.from % 16 * 16 + p.to % 16) as u32 * 128
        + (p.kind % 8) as u32 * 32768
        + (p.offset % 2048) as u32 * 262144
}

// A frame, and the parts of its identifier.
#[derive(Clone, Copy)]
pub(crate) struct Received {
    pub(crate) frame: Frame,
    pub(crate) parts: Parts,
    ghost read: { parts ≡ parts_of frame.id },
}

impl Received {
    pub(crate) fn new(frame: Frame) -> Received
        ensures { result.frame ≡ frame }
    {
        Received {
            frame,
            parts: parts_of(frame.id),
        }
    }
}
