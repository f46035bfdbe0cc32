// Reading a block.
ghost use Rattle.std.specs.Prelude.{◌≡◌, ◌+◌, ◌<◌, ◌≤◌, ◌^◌, length, get_or, Ok};
ghost use Rattle.wire.specs.Refusals.{number_of};
ghost use Rattle.wire.specs.Text.{text_len};
ghost use Rattle.mlg_rules.specs.Block.{block_len, some_len, text_in, last_of, rest_number, parts_of};
ghost use Rattle.mlg_rules.specs.Block.{read_block_of, block_answer, block_result};
ghost use Rattle.mlg_rules.specs.Log.{length_of};
ghost use Rattle.mlg_rules.specs.Numbers.{BlockNumber};
ghost use Rattle.mlg_rules.specs.RoundTrip.{BlockAlone};
ghost use Rattle.mlg_rules.specs.declared.Block.{Block};

use crate::Block;
use wire::Refusal;

// Bytes of a block by its type, here `kind`.
fn block_len(kind: u8, size: u16) -> Option<usize>
    ensures { result ≡ some_len (block_len size kind) }
{
    match kind {
        0 => Some(usize::from(size) + 5),
        1 => Some(54),
        _ => None,
    }
}

fn check_sum(t: &[u8], size: u16) -> Result<(), Refusal>
    requires { size + 5 ≤ length t.now }
    ensures { number_of result ≡ last_of 0 size t.now }
{
    let len = usize::from(size);
    if wire::sum_of(&t[4..len + 4]) != t[len + 4] {
        return Err(Refusal::WrongSum);
    }
    Ok(())
}

// The length of a mark's text, before its zero. One function for both of its callers: the search is unrolled, and a block reader
// that held it twice would be too long to inline.
fn mark_len(t: &[u8]) -> usize
    requires { 54 ≤ length t.now }
    ensures { result ≡ text_len (text_in t.now) }
{
    wire::text_len(&t[4..54])
}

fn check_text(t: &[u8], size: u16) -> Result<(), Refusal>
    requires { 54 ≤ length t.now }
    ensures { number_of result ≡ last_of 1 size t.now }
{
    if 50 <= mark_len(t) {
        return Err(Refusal::WrongText);
    }
    Ok(())
}

// The block at the start of t is whole, of a known type, and ends as it should.
fn check_rest(t: &[u8], size: u16) -> Result<(), Refusal>
    requires { 0 < length t.now }
    ensures { number_of result ≡ rest_number size t.now }
{
    let kind = t[0];
    let Some(len) = block_len(kind, size) else {
        return Err(Refusal::BlockType);
    };
    if t.len() < len {
        return Err(Refusal::CutShort);
    }
    if kind == 0 {
        check_sum(t, size)
    } else {
        check_text(t, size)
    }
}

// The parts of the block at the start of t, which stands at a place of its file.
fn block_parts(t: &[u8], size: u16, expected: u8, at: usize) -> Block
    requires { (0 < length t.now) × (rest_number size t.now ≡ 0) × (at < 2 ^ 63) }
    ensures { result ≡ parts_of (get_or t.now 0 0) expected at t.now }
{
    let counter = t[1];
    let time = wire::be16(t, 2);
    let start = at + 4;
    let as_expected = counter == expected;
    if t[0] == 0 {
        Block::Data {
            counter,
            time,
            start,
            as_expected,
        }
    } else {
        Block::Mark {
            counter,
            time,
            start,
            len: mark_len(t),
            as_expected,
        }
    }
}

// The block at a place of a file, or its end, where nothing refuses what stands there.
pub(crate) fn block_at(file: &[u8], size: u16, earlier: u64, at: usize) -> Result<Block, Refusal>
    ensures number { number_of result ≡ (block_answer size (read_block_of size earlier file.now at)).number }
    ensures block { (b : Block) → result ≡ Ok b → b ≡ read_block_of size earlier file.now at }
{
    if file.len() < at {
        return Err(Refusal::Disagree);
    }
    if file.len() == at {
        return Ok(Block::End);
    }
    let t = &file[at..];
    check_rest(t, size)?;
    Ok(block_parts(t, size, wire::counter_after(earlier), at))
}

// The block at a place of a log whose records have the given length, after the given number of earlier blocks.
pub fn read_block(file: &[u8], size: u16, earlier: u64, at: usize) -> Block
    ensures fact { (result ≡ read_block_of size earlier file.now at)
        × (block_answer size result ≡ block_result size earlier file.now at)
        × BlockNumber size file.now at (block_answer size result).number }
    ensures alone { BlockAlone }
{
    match block_at(file, size, earlier, at) {
        Ok(b) => b,
        Err(e) => Block::Refused {
            number: e.number(),
            place: at,
        },
    }
}

// How many bytes of the log a block takes; none for the end and for a refusal.
pub fn length_of(b: Block, size: u16) -> usize
    ensures { result ≡ length_of size b }
{
    let (Block::Data { .. } | Block::Mark { .. }) = b else {
        return 0;
    };
    let Block::Mark { .. } = b else {
        return usize::from(size) + 5;
    };
    54
}
