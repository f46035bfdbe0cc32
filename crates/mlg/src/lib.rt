// MLG files: reading and writing headers and blocks.
#![tactic(auto)]

mod block_counting;
mod block_reading;
mod block_writing;
mod fields;
mod header_reading;
mod header_writing;
mod spans;

pub use block_counting::count_blocks;
pub use block_reading::{length_of, read_block};
pub use block_writing::{write_data, write_mark};
pub use header_reading::read_header;
pub use header_writing::write_header;
pub use mlg_rules::{Block, Header};
pub use spans::{field_span, fields_span, info_span, names_span};
pub use wire::{Blocks, Extent, Refusal};
