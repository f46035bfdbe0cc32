// Closing and reset.
ghost use Rattle.std.specs.Prelude.{◌≡◌, IfOk};
ghost use Rattle.std.proofs.Math.Option.{some};
ghost use Rattle.wire.specs.Refusals.{number_of};
ghost use Rattle.bridge_rules.specs.State.{held_slot};
ghost use Rattle.bridge_rules.specs.Views.{as_changed};
ghost use Rattle.bridge_rules.specs.Ending.{close_number, close_of, reset_of};
ghost use Rattle.bridge_rules.specs.Demand3.{Demand3};
ghost use Rattle.bridge_rules.specs.Corollaries.{Corollaries};
ghost use Rattle.bridge_rules.specs.Calls.{Calls};
ghost use Rattle.bridge_examples.specs.Examples.{Examples};

use crate::answers::refused;
use crate::search::held_slot;
use crate::soundness::sound;
use crate::state::{blank, fresh, with_slot};
use crate::{After, Bridge, Refusal};

// 11 and 14; else the ticket's slot.
#[tactic(auto, using(wire::proofs::Orders::order), unfolding(bridge_rules::specs::Ending::close_number))]
fn check_close(b: Bridge, ticket: u32) -> Result<usize, Refusal>
    ensures { (number_of result ≡ close_number b ticket) × IfOk result (λ k. held_slot b ticket ≡ some k) }
{
    if !sound(b) {
        return Err(Refusal::Unsound);
    }
    held_slot(b, ticket).ok_or(Refusal::UnknownTicket)
}

// Frees a ticket's slot in any state; 14 where the ticket is unknown.
pub fn close(b: Bridge, ticket: u32) -> After<()>
    ensures { as_changed result ≡ close_of b ticket }
{
    match check_close(b, ticket) {
        Ok(k) => After {
            bridge: with_slot(b, k, blank()),
            answer: Ok(()),
        },
        Err(e) => refused(b, e),
    }
}

// Turns any state into the fresh bridge of an own number; 11 where that is over 15. Every list of calls from a fresh bridge keeps
// demand 3, and with it stand the theorems on single calls.
pub fn reset(b: Bridge, own: u8) -> After<()>
    ensures value { as_changed result ≡ reset_of b own }
    ensures demand3 { Demand3 }
    ensures corollaries { Corollaries }
    ensures calls { Calls }
    ensures examples { Examples }
{
    if 15 < own {
        return refused(b, Refusal::Unsound);
    }
    After {
        bridge: fresh(own),
        answer: Ok(()),
    }
}
