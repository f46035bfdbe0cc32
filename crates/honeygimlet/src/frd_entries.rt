// FRD files.
ghost use Rattle.std.specs.Prelude.{◌≡◌, length, take, drop};
ghost use Rattle.wire.specs.Writer.{wrote, leaves};
ghost use Rattle.frd_rules.specs.Header.{read_header_of, signature_in, read_signature_of};
ghost use Rattle.frd_rules.specs.Block.{counter_after, read_block_of};
ghost use Rattle.frd_rules.specs.Log.{count_blocks_of};
ghost use Rattle.frd_rules.specs.Writing.{header_bytes, write_header_number, data_bytes, write_data_number, time_bytes, write_time_number};
ghost use Rattle.honeygimlet.specs.Answers.{frd_header, no_frd_block, found_frd_block, frd_block};

use crate::{DATA, END, FrdBlock, FrdHeader, REFUSED, TIME};
use frd::Block;

#[unsafe(no_mangle)]
pub extern "C" fn hg_frd_read_header(file: &[u8]) -> FrdHeader
    ensures { result ≡ frd_header (read_header_of file.now) }
{
    match frd::read_header(file) {
        Ok(h) => FrdHeader {
            time: h.time,
            size: h.size,
            number: 0,
        },
        Err(e) => FrdHeader {
            time: 0,
            size: 0,
            number: e.number(),
        },
    }
}

// The end or a refusal.
fn no_block(kind: u8, number: u8, place: usize) -> FrdBlock
    ensures { result ≡ no_frd_block kind number place }
{
    FrdBlock {
        place,
        start: 0,
        len: 0,
        time: 0,
        number,
        kind,
        counter: 0,
        as_expected: 0,
    }
}

// A data block or a time block.
fn found(kind: u8, counter: u8, time: u32, start: usize, len: usize, as_expected: bool) -> FrdBlock
    ensures { result ≡ found_frd_block kind counter time start len as_expected }
{
    FrdBlock {
        place: 0,
        start,
        len,
        time,
        number: 0,
        kind,
        counter,
        as_expected: u8::from(as_expected),
    }
}

// A block as a struct, where records have the given length.
fn block_out(b: Block, size: u16) -> FrdBlock
    ensures { result ≡ frd_block size b }
{
    let Block::Data {
        counter,
        start,
        as_expected,
    } = b
    else {
        let Block::Time {
            counter,
            time,
            as_expected,
        } = b
        else {
            let Block::Refused { number, place } = b else {
                return no_block(END, 0, 0);
            };
            return no_block(REFUSED, number, place);
        };
        return found(TIME, counter, time, 0, 0, as_expected);
    };
    found(DATA, counter, 0, start, usize::from(size), as_expected)
}

#[unsafe(no_mangle)]
pub extern "C" fn hg_frd_read_block(file: &[u8], size: u16, earlier: u64, place: usize) -> FrdBlock
    ensures { result ≡ frd_block size (read_block_of size earlier file.now place) }
{
    let b = frd::read_block(file, size, earlier, place);
    block_out(b, size)
}

#[unsafe(no_mangle)]
pub extern "C" fn hg_frd_count_blocks(file: &[u8]) -> wire::Tally
    ensures { result ≡ count_blocks_of file.now }
{
    frd::count_blocks(file).into()
}

#[unsafe(no_mangle)]
pub extern "C" fn hg_frd_read_signature(file: &[u8]) -> wire::Span
    ensures value { result ≡ read_signature_of file.now }
    ensures part { result.number ≡ 0 → take result.len (drop result.start file.now) ≡ signature_in file.now }
{
    frd::read_signature(file).into()
}

#[unsafe(no_mangle)]
pub extern "C" fn hg_frd_write_header(
    out: &mut [u8],
    time: u32,
    signature: &[u8],
    size: u16,
) -> wire::Written
    ensures { (result ≡ wrote (write_header_number time signature.now size (length out.old))
        (header_bytes time signature.now size))
        × (out.new ≡ leaves (write_header_number time signature.now size (length out.old))
        (header_bytes time signature.now size) out.old) }
{
    frd::write_header(out, time, signature, size).into()
}

#[unsafe(no_mangle)]
pub extern "C" fn hg_frd_write_data(
    out: &mut [u8],
    size: u16,
    earlier: u64,
    bytes: &[u8],
) -> wire::Written
    ensures { (result ≡ wrote (write_data_number size (counter_after earlier) bytes.now (length out.old))
        (data_bytes (counter_after earlier) bytes.now))
        × (out.new ≡ leaves (write_data_number size (counter_after earlier) bytes.now (length out.old))
        (data_bytes (counter_after earlier) bytes.now) out.old) }
{
    frd::write_data(out, size, earlier, bytes).into()
}

#[unsafe(no_mangle)]
pub extern "C" fn hg_frd_write_time(out: &mut [u8], earlier: u64, time: u32) -> wire::Written
    ensures { (result ≡ wrote (write_time_number (counter_after earlier) time (length out.old)) (time_bytes (counter_after earlier) time))
        × (out.new ≡ leaves (write_time_number (counter_after earlier) time (length out.old))
        (time_bytes (counter_after earlier) time) out.old) }
{
    frd::write_time(out, earlier, time).into()
}
