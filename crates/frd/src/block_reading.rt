// Reading a block.
ghost use Rattle.std.specs.Prelude.{◌≡◌, ◌<◌, ◌^◌, length};
ghost use Rattle.wire.specs.Refusals.{number_of};
ghost use Rattle.frd_rules.specs.Block.{block_len, some_len, rest_number, found_of, read_block_number, read_block_of, block_answer, block_result, length_of};
ghost use Rattle.frd_rules.specs.RoundTrip.{BlockAlone};

use crate::Block;
use wire::Refusal;

// The length of a block by its type, here `kind`.
fn block_len(size: u16, kind: u8) -> Option<usize>
    ensures { result ≡ some_len (block_len size kind) }
{
    match kind {
        1 => Some(usize::from(size) + 2),
        2 => Some(6),
        _ => None,
    }
}

// Whether the rest of a file is its end, or begins with a whole block of a known type.
fn check_rest(t: &[u8], size: u16) -> Result<(), Refusal>
    ensures { number_of result ≡ rest_number size t.now }
{
    if t.is_empty() {
        return Ok(());
    }
    let Some(len) = block_len(size, t[0]) else {
        return Err(Refusal::BlockType);
    };
    if t.len() < len {
        return Err(Refusal::CutShort);
    }
    Ok(())
}

// What the rest of a file begins with, where nothing refuses it.
fn found(t: &[u8], expected: u8, at: usize) -> Block
    requires { (length t.now ≡ 1 → ⊥) × (at < 2 ^ 63) }
    ensures { result ≡ found_of expected at t.now }
{
    if t.is_empty() {
        return Block::End;
    }
    let counter = t[1];
    let as_expected = counter == expected;
    if t[0] == 1 {
        Block::Data {
            counter,
            start: at + 2,
            as_expected,
        }
    } else {
        Block::Time {
            counter,
            time: wire::be32(t, 2),
            as_expected,
        }
    }
}

// Whether what stands at a place is a file's end, or a whole block of a known type.
pub(crate) fn check_block(file: &[u8], size: u16, at: usize) -> Result<(), Refusal>
    ensures { number_of result ≡ read_block_number size file.now at }
{
    if file.len() < at {
        return Err(Refusal::Disagree);
    }
    check_rest(&file[at..], size)
}

// The block at a place of a log of the given output length, after the given number of blocks.
pub fn read_block(file: &[u8], size: u16, earlier: u64, at: usize) -> Block
    ensures value { (result ≡ read_block_of size earlier file.now at) × (block_answer result ≡ block_result size earlier file.now at) }
    ensures alone { BlockAlone }
{
    match check_block(file, size, at) {
        Ok(()) => found(&file[at..], wire::counter_after(earlier), at),
        Err(e) => Block::Refused {
            number: e.number(),
            place: at,
        },
    }
}

// How many bytes of the log a block takes; none for the end and for a refusal.
pub fn length_of(b: Block, size: u16) -> usize
    ensures { result ≡ length_of size b }
{
    let (Block::Data { .. } | Block::Time { .. }) = b else {
        return 0;
    };
    let Block::Time { .. } = b else {
        return usize::from(size) + 2;
    };
    6
}
