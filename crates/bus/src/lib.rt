// The CAN bus of a Megasquirt: identifiers, frames, request bytes, and the table holder.
#![tactic(auto)]

pub mod frames;
pub mod holder;
pub mod ident;
pub mod requests;
mod rows;
mod views;

pub use bus_rules::{
    BURN, CMD, Directory, FirstState, Frame, HolderAnswer, HolderState, Parts, REQ, RSP, Request,
    RequestBytes, RequestRead, Served, XTND,
};
pub use views::{Answered, Asked, Reply};
pub use wire::Refusal;
