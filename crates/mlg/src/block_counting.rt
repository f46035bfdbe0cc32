// Counting the blocks of a file.
ghost use Rattle.std.specs.Prelude.{◌≡◌};
ghost use Rattle.wire.specs.Log.{as_tally};
ghost use Rattle.mlg_rules.specs.Log.{log_of, tally_of, count_blocks_of};
ghost use Rattle.mlg_rules.specs.RoundTrip.{LogPlaced};

use crate::Block;
use crate::block_reading::{block_at, length_of};
use crate::header_reading::read_header;
use wire::Blocks;

// Counts the blocks from a place on; FRD's walks another list of blocks, by another definition. (No `for`: each step is as long as the block
// that stands there.)
fn count_from(file: &[u8], size: u16, begin: usize) -> Blocks
    ensures { as_tally result ≡ tally_of size (log_of size file.now begin) }
{
    let mut at = begin;
    let mut count: u64 = 0;
    loop {
        let b = match block_at(file, size, count, at) {
            Ok(b) => b,
            Err(e) => {
                return Blocks {
                    count,
                    ending: Err(e),
                    place: at,
                };
            }
        };
        let (Block::Data { .. } | Block::Mark { .. }) = b else {
            return Blocks {
                count,
                ending: Ok(()),
                place: at,
            };
        };
        at += length_of(b, size);
        count += 1;
    }
}

// How many blocks a file has, and how they ended; a refused header gives no blocks, its refusal, and place 0.
pub fn count_blocks(file: &[u8]) -> Blocks
    ensures value { as_tally result ≡ count_blocks_of file.now }
    ensures placed { LogPlaced }
{
    match read_header(file) {
        Ok(h) => count_from(file, h.size, h.begin as usize),
        Err(e) => Blocks {
            count: 0,
            ending: Err(e),
            place: 0,
        },
    }
}
