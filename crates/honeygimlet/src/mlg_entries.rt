// MLG files.
ghost use Rattle.std.specs.Prelude.{◌≡◌, ◌+◌, ◌≤◌, length};
ghost use Rattle.wire.specs.Writer.{wrote, leaves};
ghost use Rattle.mlg_rules.specs.Header.{read_header_of};
ghost use Rattle.mlg_rules.specs.Block.{counter_after, read_block_of};
ghost use Rattle.mlg_rules.specs.Log.{count_blocks_of};
ghost use Rattle.mlg_rules.specs.Parts.{fields_span_of, field_span_of, names_span_of, info_span_of};
ghost use Rattle.mlg_rules.specs.Writing.{header_bytes, write_header_number, data_bytes, mark_bytes, write_data_number, write_mark_number};
ghost use Rattle.listing_rules.specs.Listing.{list_of, list_number};
ghost use Rattle.listing_rules.specs.Longest.{longest};
ghost use Rattle.honeygimlet.specs.Answers.{mlg_header, no_mlg_block, found_mlg_block, mlg_block};

use crate::{DATA, END, MARK, MlgBlock, MlgHeader, REFUSED};
use mlg::Block;

#[unsafe(no_mangle)]
pub extern "C" fn hg_mlg_read_header(file: &[u8]) -> MlgHeader
    ensures { result ≡ mlg_header (read_header_of file.now) }
{
    match mlg::read_header(file) {
        Ok(h) => MlgHeader {
            time: h.time,
            info: h.info,
            begin: h.begin,
            size: h.size,
            count: h.count,
            version: h.version,
            number: 0,
        },
        Err(e) => MlgHeader {
            time: 0,
            info: 0,
            begin: 0,
            size: 0,
            count: 0,
            version: 0,
            number: e.number(),
        },
    }
}

// The end or a refusal. (This and the next two have a twin for FRD, since C's two structs differ in the width of the time.)
fn no_block(kind: u8, number: u8, place: usize) -> MlgBlock
    ensures { result ≡ no_mlg_block kind number place }
{
    MlgBlock {
        place,
        start: 0,
        len: 0,
        time: 0,
        number,
        kind,
        counter: 0,
        as_expected: 0,
    }
}

// A data block or a mark.
fn found(kind: u8, counter: u8, time: u16, start: usize, len: usize, as_expected: bool) -> MlgBlock
    ensures { result ≡ found_mlg_block kind counter time start len as_expected }
{
    MlgBlock {
        place: 0,
        start,
        len,
        time,
        number: 0,
        kind,
        counter,
        as_expected: u8::from(as_expected),
    }
}

// A block as a struct, where records have the given length.
fn block_out(b: Block, size: u16) -> MlgBlock
    ensures { result ≡ mlg_block size b }
{
    let Block::Data {
        counter,
        time,
        start,
        as_expected,
    } = b
    else {
        let Block::Mark {
            counter,
            time,
            start,
            len,
            as_expected,
        } = b
        else {
            let Block::Refused { number, place } = b else {
                return no_block(END, 0, 0);
            };
            return no_block(REFUSED, number, place);
        };
        return found(MARK, counter, time, start, len, as_expected);
    };
    found(DATA, counter, time, start, usize::from(size), as_expected)
}

#[unsafe(no_mangle)]
pub extern "C" fn hg_mlg_read_block(file: &[u8], size: u16, earlier: u64, place: usize) -> MlgBlock
    ensures { result ≡ mlg_block size (read_block_of size earlier file.now place) }
{
    let b = mlg::read_block(file, size, earlier, place);
    block_out(b, size)
}

#[unsafe(no_mangle)]
pub extern "C" fn hg_mlg_count_blocks(file: &[u8]) -> wire::Tally
    ensures { result ≡ count_blocks_of file.now }
{
    mlg::count_blocks(file).into()
}

#[unsafe(no_mangle)]
pub extern "C" fn hg_mlg_fields_span(file: &[u8]) -> wire::Span
    ensures { (result ≡ fields_span_of file.now) × (result.start + result.len ≤ length file.now) }
{
    mlg::fields_span(file).into()
}

#[unsafe(no_mangle)]
pub extern "C" fn hg_mlg_field_span(file: &[u8], index: u16) -> wire::Span
    ensures { (result ≡ field_span_of file.now index) × (result.start + result.len ≤ length file.now) }
{
    mlg::field_span(file, index).into()
}

#[unsafe(no_mangle)]
pub extern "C" fn hg_mlg_names_span(file: &[u8]) -> wire::Span
    ensures { (result ≡ names_span_of file.now) × (result.start + result.len ≤ length file.now) }
{
    mlg::names_span(file).into()
}

#[unsafe(no_mangle)]
pub extern "C" fn hg_mlg_info_span(file: &[u8]) -> wire::Span
    ensures { (result ≡ info_span_of file.now) × (result.start + result.len ≤ length file.now) }
{
    mlg::info_span(file).into()
}

#[unsafe(no_mangle)]
pub extern "C" fn hg_mlg_write_header(
    out: &mut [u8],
    time: u32,
    fields: &[u8],
    names: &[u8],
    info: &[u8],
) -> wire::Written
    ensures { (result ≡ wrote (write_header_number 2 time fields.now names.now info.now (length out.old))
        (header_bytes 2 time fields.now names.now info.now))
        × (out.new ≡ leaves (write_header_number 2 time fields.now names.now info.now (length out.old))
        (header_bytes 2 time fields.now names.now info.now) out.old) }
{
    mlg::write_header(out, time, fields, names, info).into()
}

#[unsafe(no_mangle)]
pub extern "C" fn hg_mlg_write_data(
    out: &mut [u8],
    size: u16,
    earlier: u64,
    time: u16,
    bytes: &[u8],
) -> wire::Written
    ensures { (result ≡ wrote (write_data_number size bytes.now (length out.old))
        (data_bytes (counter_after earlier) time bytes.now))
        × (out.new ≡ leaves (write_data_number size bytes.now (length out.old))
        (data_bytes (counter_after earlier) time bytes.now) out.old) }
{
    mlg::write_data(out, size, earlier, time, bytes).into()
}

#[unsafe(no_mangle)]
pub extern "C" fn hg_mlg_write_mark(
    out: &mut [u8],
    earlier: u64,
    time: u16,
    text: &[u8],
) -> wire::Written
    ensures { (result ≡ wrote (write_mark_number text.now (length out.old)) (mark_bytes (counter_after earlier) time text.now))
        × (out.new ≡ leaves (write_mark_number text.now (length out.old))
        (mark_bytes (counter_after earlier) time text.now) out.old) }
{
    mlg::write_mark(out, earlier, time, text).into()
}

// The listing of a file.
#[unsafe(no_mangle)]
pub extern "C" fn hg_mlg_list(out: &mut [u8], file: &[u8]) -> wire::Written
    ensures value { (result ≡ wrote (list_number file.now (length out.old)) (list_of file.now))
        × (out.new ≡ leaves (list_number file.now (length out.old)) (list_of file.now) out.old) }
    ensures file_len_bound { length (list_of file.now) ≤ longest }
{
    listing::list(out, file).into()
}
