// Parts of a file as places and lengths. Each call judges the header.
ghost use Rattle.std.specs.Prelude.{◌≡◌, ◌+◌, ◌≤◌, length};
ghost use Rattle.wire.specs.Log.{as_span};
ghost use Rattle.mlg_rules.specs.Parts.{names_end, fields_span_of, field_span_of, names_span_of, info_span_of};
ghost use Rattle.mlg_rules.specs.RoundTrip.{FieldsPlaced};

use crate::Header;
use crate::header_reading::{check_header, fields_end};
use mlg_values::layout_of;
use wire::{Extent, Refusal};

// Where all the fields stand, back to back: the 89 bytes of field i at start + 89 * i.
pub fn fields_span(file: &[u8]) -> Result<Extent, Refusal>
    ensures fact { (as_span result ≡ fields_span_of file.now) × ((as_span result).start + (as_span result).len ≤ length file.now) }
    ensures each { FieldsPlaced }
{
    let h = check_header(file)?;
    let layout = layout_of(h.version);
    Ok(Extent {
        start: layout.header,
        len: layout.field * usize::from(h.count),
    })
}

// Where field i stands.
pub fn field_span(file: &[u8], index: u16) -> Result<Extent, Refusal>
    ensures { (as_span result ≡ field_span_of file.now index) × ((as_span result).start + (as_span result).len ≤ length file.now) }
{
    let h = check_header(file)?;
    if h.count <= index {
        return Err(Refusal::Disagree);
    }
    let layout = layout_of(h.version);
    Ok(Extent {
        start: layout.header + layout.field * usize::from(index),
        len: layout.field,
    })
}

fn names_end(h: Header) -> usize
    ensures { result ≡ names_end h }
{
    let info = h.info as usize;
    if info == 0 { h.begin as usize } else { info }
}

// Where the names area stands: from the fields' end to info start, or to data begin where there is no info. In a file that is not in the
// writer's layout, names may also stand after it.
pub fn names_span(file: &[u8]) -> Result<Extent, Refusal>
    ensures { (as_span result ≡ names_span_of file.now) × ((as_span result).start + (as_span result).len ≤ length file.now) }
{
    let h = check_header(file)?;
    let start = fields_end(h);
    Ok(Extent {
        start,
        len: names_end(h) - start,
    })
}

// Where the info text stands, without its zero.
pub fn info_span(file: &[u8]) -> Result<Extent, Refusal>
    ensures { (as_span result ≡ info_span_of file.now) × ((as_span result).start + (as_span result).len ≤ length file.now) }
{
    let start = check_header(file)?.info as usize;
    if start == 0 {
        return Ok(Extent { start: 0, len: 0 });
    }
    Ok(Extent {
        start,
        len: wire::text_len(&file[start..]),
    })
}
