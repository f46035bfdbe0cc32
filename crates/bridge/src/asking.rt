// What an opening asks for, and a held slot of its transfer.
ghost use Rattle.std.specs.Prelude.{◌≡◌};
ghost use Rattle.wire.specs.Refusals.{number_of};
ghost use Rattle.bridge_rules.specs.State.{ask_number};

use crate::Refusal;

// A count of bytes of a device's table, from an offset on.
#[derive(Clone, Copy)]
pub(crate) struct Ask {
    pub device: u8,
    pub table: u8,
    pub offset: u16,
    pub count: usize,
}

impl Ask {
    // 7, 9 and 8, by which an opening judges its arguments.
    #[tactic(auto, using(wire::proofs::Orders::order), unfolding(bridge_rules::specs::State::ask_number))]
    pub(crate) fn check(self) -> Result<(), Refusal>
        ensures { number_of result ≡ ask_number self.device self.table self.offset self.count }
    {
        if 15 < self.device {
            return Err(Refusal::NoTable);
        }
        if 31 < self.table {
            return Err(Refusal::NoTable);
        }
        if self.count == 0 {
            return Err(Refusal::Count);
        }
        if 128 < self.count {
            return Err(Refusal::Count);
        }
        if 2048 < self.offset as usize + self.count {
            return Err(Refusal::PastEnd);
        }
        Ok(())
    }
}
