// A bridge of four slots: transfers to and from the tables of devices on the bus. Its private functions take a slot's number below 4 and a
// sound bridge by a `requires`, and not by types of their own: every call makes the bridge anew, so such a type would be built at each step.
#![tactic(auto)]

mod answers;
mod asking;
pub mod ending;
pub mod in_place;
pub mod incoming;
pub mod opening;
mod progress;
mod search;
mod sending;
mod soundness;
mod state;
pub mod tickets;
pub mod turning;

pub use bridge_rules::{
    After, Bridge, CHECK, DIFFERENT, DONE, FREE, GAVE_UP, READ, READ_BACK, READY, Slot, WAITING,
    WRITE,
};
pub use wire::{Extent, Refusal};
