// FRD 1: reader and writer of a log's header and of its two kinds of blocks.
#![tactic(auto)]

mod block_counting;
mod block_reading;
mod header_reading;
mod writing;

pub use block_counting::count_blocks;
pub use block_reading::{length_of, read_block};
pub use frd_rules::{Block, Header};
pub use header_reading::{read_header, read_signature};
pub use wire::{Blocks, Extent, Refusal};
pub use writing::{write_data, write_header, write_time};
