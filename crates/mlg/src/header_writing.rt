// Writing a header.
ghost use Rattle.std.specs.Prelude.{◌≡◌, ◌+◌, ◌/◌, ◌≤◌, length};
ghost use Rattle.wire.specs.Put.{put_of};
ghost use Rattle.wire.specs.Refusals.{number_of};
ghost use Rattle.wire.specs.Writer.{as_written, wrote, leaves};
ghost use Rattle.mlg_rules.specs.Layout.{header_len, field_len};
ghost use Rattle.mlg_rules.specs.Area.{ended, info_start};
ghost use Rattle.mlg_rules.specs.Fields.{sizes};
ghost use Rattle.mlg_rules.specs.Header.{body_number};
ghost use Rattle.mlg_rules.specs.Writing.{number_bytes, header_bytes, write_header_number};
ghost use Rattle.mlg_rules.specs.RoundTrip.{HeaderBack, LogBack, LogSame};
ghost use Rattle.mlg_rules.specs.Examples.{Examples};

use crate::Header;
use crate::fields::{Area, ended_len};
use mlg_values::layout_of;
use wire::Refusal;

fn info_start(at: usize, info: &[u8]) -> usize
    ensures { result ≡ info_start at info.now }
{
    if info.is_empty() { 0 } else { at }
}

// The sum of the sizes of whole fields; a bad type counts 0.
fn sizes_of(version: u16, fields: &[u8]) -> usize
    ensures { result ≡ sizes version (length fields.now / field_len version) fields.now }
{
    let mut total = 0;
    for d in fields.chunks_exact(layout_of(version).field) {
        total += usize::from(mlg_values::size_of(d[0]));
    }
    total
}

// A header's numbers in bytes. (Each byte by its place: arrays are joined on a heap only.)
fn number_bytes(h: Header) -> [u8; 24]
    ensures { result ≡ number_bytes h }
{
    let v = wire::two_bytes(h.version);
    let t = wire::four_bytes(h.time);
    let i = wire::four_bytes(h.info);
    let b = wire::four_bytes(h.begin);
    let s = wire::two_bytes(h.size);
    let n = wire::two_bytes(h.count);
    [
        0x4D, 0x4C, 0x56, 0x4C, 0x47, 0, v[0], v[1], t[0], t[1], t[2], t[3], i[0], i[1], i[2],
        i[3], b[0], b[1], b[2], b[3], s[0], s[1], n[0], n[1],
    ]
}

// Puts info with its zero at a place, and nothing where it is empty.
fn put_ended(out: &mut [u8], at: usize, info: &[u8])
    requires { at + length (ended info.now) ≤ length out.old }
    ensures { out.new ≡ put_of out.old at (ended info.now) }
{
    let len = info.len();
    if len != 0 {
        wire::put(out, at, info);
        let last = [0u8];
        wire::put(out, at + len, &last);
    }
}

// What a header is written from. What `check_lengths` found of it is a `requires` of those that follow, and no ghost field: a caller lends
// any parts.
#[derive(Clone, Copy)]
pub(crate) struct Parts<'a> {
    pub(crate) version: u16,
    pub(crate) time: u32,
    pub(crate) fields: &'a [u8],
    pub(crate) names: &'a [u8],
    pub(crate) info: &'a [u8],
}

impl Parts<'_> {
    ghost use Rattle.mlg.specs.PartsOf.{lengths_of, number_of_parts, header_of, bytes_of, area_of_parts};

    fn check_lengths(&self) -> Result<(), Refusal>
        ensures { number_of result ≡ lengths_of self.now }
    {
        let layout = layout_of(self.version);
        let len = self.fields.len();
        if len % layout.field != 0 {
            return Err(Refusal::Disagree);
        }
        if 65535 < len / layout.field {
            return Err(Refusal::Disagree);
        }
        if 65535 < sizes_of(self.version, self.fields) {
            return Err(Refusal::Disagree);
        }
        let area = self.names.len() + ended_len(self.info);
        if 4294967295 - (layout.header + len) < area {
            return Err(Refusal::Disagree);
        }
        if wire::text_len(self.info) < self.info.len() {
            return Err(Refusal::WrongText);
        }
        Ok(())
    }

    // "Then as the reader".
    fn check_body(&self) -> Result<(), Refusal>
        requires { lengths_of self.now ≡ 0 }
        ensures { number_of result ≡ body_number (header_of self.now) self.now.fields.now (area_of_parts self.now) }
    {
        let end = layout_of(self.version).header + self.fields.len();
        let area = Area::of(end, self.names, self.info);
        area.check_fields(self.version, self.fields)?;
        Ok(())
    }

    // Bytes of the header with its fields, names and info.
    fn total_len(&self) -> usize
        requires { lengths_of self.now ≡ 0 }
        ensures { (result ≡ header_len self.now.version + length self.now.fields.now + length (area_of_parts self.now)) × (result ≤ 4294967295) }
    {
        layout_of(self.version).header + self.fields.len() + self.names.len() + ended_len(self.info)
    }

    fn check(&self, room: usize) -> Result<(), Refusal>
        ensures { number_of result ≡ number_of_parts self.now room }
    {
        self.check_lengths()?;
        self.check_body()?;
        if room < self.total_len() {
            return Err(Refusal::NoRoom);
        }
        Ok(())
    }

    // The numbers of the header with these fields, names and info.
    fn header(&self) -> Header
        requires { lengths_of self.now ≡ 0 }
        ensures { result ≡ header_of self.now }
    {
        let layout = layout_of(self.version);
        let at = layout.header + self.fields.len() + self.names.len();
        Header {
            version: self.version,
            time: self.time,
            info: info_start(at, self.info) as u32,
            begin: self.total_len() as u32,
            size: sizes_of(self.version, self.fields) as u16,
            count: (self.fields.len() / layout.field) as u16,
        }
    }

    fn put(&self, out: &mut [u8])
        requires { (lengths_of self.now ≡ 0) × (length (bytes_of self.now) ≤ length out.old) }
        ensures { out.new ≡ leaves 0 (bytes_of self.now) out.old }
    {
        let first = number_bytes(self.header());
        let start = layout_of(self.version).header;
        let end = start + self.fields.len();
        wire::put(out, 0, &first);
        wire::put(out, start, self.fields);
        wire::put(out, end, self.names);
        put_ended(out, end + self.names.len(), self.info);
    }
}

// Writes a header with its fields, names area and info.
pub fn write_header(
    out: &mut [u8],
    time: u32,
    fields: &[u8],
    names: &[u8],
    info: &[u8],
) -> Result<usize, Refusal>
    ensures fact { (as_written result ≡ wrote
        (write_header_number 2 time fields.now names.now info.now (length out.old))
        (header_bytes 2 time fields.now names.now info.now))
        × (out.new ≡ leaves
        (write_header_number 2 time fields.now names.now info.now (length out.old))
        (header_bytes 2 time fields.now names.now info.now) out.old) }
    ensures back { HeaderBack }
    ensures log { LogBack }
    ensures same { LogSame }
    ensures examples { Examples }
{
    let parts = Parts {
        version: 2,
        time,
        fields,
        names,
        info,
    };
    parts.check(out.len())?;
    parts.put(out);
    Ok(parts.total_len())
}
