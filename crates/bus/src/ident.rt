// The 29-bit identifier: packed, unpacked, and judged by a receiver.
ghost use Rattle.std.specs.Prelude.{◌≡◌, ℕ};
ghost use Rattle.wire.specs.Answer.{result_of};
ghost use Rattle.wire.specs.Refusals.{number_of, given};
ghost use Rattle.bus_rules.specs.Ident.{id_in, pack_number, pack_of, no_parts, parts_of, unpack_number, unpack_of};
ghost use Rattle.bus_rules.specs.Frames.{head_number, receive_number, read_head_of};
ghost use Rattle.bus_rules.specs.Rows.{UnpackAfterPack, PackAfterUnpack, RowByRow, LawfulIds};

use crate::rows::{Received, id_in_rows, parts_of};
use crate::{Frame, Parts, Refusal};

// Parts that no row holds are refused.
#[tactic(auto, using(wire::proofs::Orders::order), unfolding(bus_rules::specs::Ident::pack_number))]
fn check_parts(p: Parts) -> Result<(), Refusal>
    ensures { number_of result ≡ pack_number p }
{
    if 7 < p.kind {
        return Err(Refusal::NotServed);
    }
    if 15 < p.from {
        return Err(Refusal::NoTable);
    }
    if 15 < p.to {
        return Err(Refusal::NoTable);
    }
    if 31 < p.table {
        return Err(Refusal::NoTable);
    }
    if 2047 < p.offset {
        return Err(Refusal::PastEnd);
    }
    Ok(())
}

// The identifier of parts that its rows hold; else 5 (type), 7 (device or table) or 8 (offset).
pub fn pack(p: Parts) -> Result<u32, Refusal>
    ensures fact { (result ≡ pack_of p) × (given 0 result ≡ result_of 0 (pack_number p) (id_in p)) }
    ensures back { UnpackAfterPack p result }
    ensures rows { ((id : ℕ) → result ≡ Ok id → RowByRow id p) }
    ensures lawful { LawfulIds }
{
    check_parts(p)?;
    Ok(id_in_rows(p))
}

// 1 or 2 for an identifier that is not lawful.
#[tactic(auto, using(wire::proofs::Orders::order), unfolding(bus_rules::specs::Ident::unpack_number, bus_rules::specs::Ident::id_spare))]
fn check_id(id: u32) -> Result<(), Refusal>
    ensures { number_of result ≡ unpack_number id }
{
    if 536870912 <= id {
        return Err(Refusal::HighIdentifier);
    }
    if id % 4 != 0 {
        return Err(Refusal::SpareBits);
    }
    Ok(())
}

// The parts of a lawful identifier; 1 for 2^29 or more, 2 for spare bits set.
pub fn unpack(id: u32) -> Result<Parts, Refusal>
    ensures fact { (result ≡ unpack_of id) × (given no_parts result ≡ result_of no_parts (unpack_number id) (parts_of id)) }
    ensures back { PackAfterUnpack id result }
    ensures rows { ((p : Parts) → result ≡ Ok p → RowByRow id p) }
    ensures lawful { LawfulIds }
{
    check_id(id)?;
    Ok(parts_of(id))
}

impl Received {
    // 1, 2, 3 and 4, by which every receiver of this own number judges a frame.
    pub(crate) fn check_head(self, own: u8) -> Result<(), Refusal>
        ensures { number_of result ≡ head_number own self.frame }
    {
        check_id(self.frame.id)?;
        if 8 < self.frame.len {
            return Err(Refusal::FrameLength);
        }
        if self.parts.to != own {
            return Err(Refusal::OtherDevice);
        }
        Ok(())
    }

    #[tactic(auto, using(wire::proofs::Orders::order), unfolding(bus_rules::specs::Frames::receive_number))]
    fn check_receiver(self, own: u8) -> Result<(), Refusal>
        ensures { number_of result ≡ receive_number own self.frame }
    {
        if 15 < own {
            return Err(Refusal::Unsound);
        }
        self.check_head(own)
    }
}

// The parts of the identifier of a frame that a receiver of this own number does not refuse; else 11 (own number over 15), 1, 2, 3, 4.
pub fn read_head(own: u8, f: Frame) -> Result<Parts, Refusal>
    ensures { (result ≡ read_head_of own f) × (given no_parts result ≡ result_of no_parts (receive_number own f) (parts_of f.id)) }
{
    let x = Received::new(f);
    x.check_receiver(own)?;
    Ok(x.parts)
}
