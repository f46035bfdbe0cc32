// Searches for a slot.
ghost use Rattle.std.specs.Prelude.{◌≡◌};
ghost use Rattle.bridge_rules.specs.State.{lowest_free, lowest_givable, held_slot, next_ready};
ghost use Rattle.bridge_rules.specs.Views.{as_found};

use crate::{Bridge, FREE, READY};

// The lowest free slot, whether it rests or not.
pub(crate) fn lowest_free(b: Bridge) -> Option<usize>
    ensures { as_found result ≡ lowest_free b }
{
    b.slots.iter().position(|x| x.phase == FREE)
}

// The lowest slot that an opening may take: it is free, and has no turns left to rest.
pub(crate) fn lowest_givable(b: Bridge) -> Option<usize>
    ensures { as_found result ≡ lowest_givable b }
{
    let mut slots = b.slots.iter().zip(b.rests.iter());
    slots.position(|(x, rest)| x.phase == FREE && *rest == 0)
}

// The slot that a ticket's transfer holds.
pub(crate) fn held_slot(b: Bridge, ticket: u32) -> Option<usize>
    ensures { as_found result ≡ held_slot b ticket }
{
    b.slots
        .iter()
        .position(|x| x.phase != FREE && x.ticket == ticket)
}

// The first ready slot after the one last served. 01 names this form: "a loop over the four slots yields the first ready one by break".
pub(crate) fn next_ready(b: Bridge) -> Option<usize>
    ensures { as_found result ≡ next_ready b }
{
    let start = b.last as usize + 1;
    let mut i: usize = 0;
    loop {
        if i == 4 {
            break None;
        }
        let k = (start + i) % 4;
        if b.slots[k].phase == READY {
            break Some(k);
        }
        i += 1;
    }
}
