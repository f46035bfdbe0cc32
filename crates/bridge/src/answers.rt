// What the calls share: how they judge the bridge and the buffers that they are lent, and a refusal.
ghost use Rattle.std.specs.Prelude.{◌≡◌, ◌&&◌, eqb};
ghost use Rattle.wire.specs.Refusals.{number_of};
ghost use Rattle.bridge_rules.specs.Answers.{lent_number};

use crate::soundness::sound;
use crate::{After, Bridge, Refusal};

// 11 and 10, by which a call judges the bridge and its buffers, of lengths n and m.
#[tactic(auto, using(wire::proofs::Orders::order), unfolding(bridge_rules::specs::Answers::lent_number))]
pub(crate) fn check_lent(b: Bridge, n: usize, m: usize) -> Result<(), Refusal>
    ensures { number_of result ≡ lent_number b (eqb n 512 && eqb m 512) }
{
    if !sound(b) {
        return Err(Refusal::Unsound);
    }
    if n != 512 {
        return Err(Refusal::MemoryLength);
    }
    if m != 512 {
        return Err(Refusal::MemoryLength);
    }
    Ok(())
}

// A refusal leaves the bridge as it was.
pub(crate) fn refused<T>(b: Bridge, e: Refusal) -> After<T>
    ensures { result ≡ record { bridge = b; answer = Err e } }
{
    After {
        bridge: b,
        answer: Err(e),
    }
}
