// Reading a header: its numbers, and what refuses it.
ghost use Rattle.std.specs.Prelude.{◌≡◌, List, ℕ, ◌≤◌, length, Ok};
ghost use Rattle.wire.specs.Answer.{result_of};
ghost use Rattle.wire.specs.Refusals.{number_of};
ghost use Rattle.mlg_rules.specs.Fields.{sizes};
ghost use Rattle.mlg_rules.specs.Header.{numbers_of, fields_end, name_number, places_number, last_number, area_in, read_header_number};
ghost use Rattle.mlg_rules.specs.Header.{read_header_of, no_header, head_answer};
ghost use Rattle.mlg_rules.specs.Numbers.{HeaderNumber};
ghost use Rattle.mlg.specs.Areas.{Tells};
ghost use Rattle.mlg_rules.specs.declared.Header.{Header};

use crate::Header;
use crate::fields::Area;
use mlg_values::layout_of;
use wire::Refusal;

// The header's numbers, as they stand.
fn numbers(file: &[u8]) -> Header
    ensures { result ≡ numbers_of file.now }
{
    let version = wire::be16(file, 6);
    let w = layout_of(version).info;
    Header {
        version,
        time: wire::be32(file, 8),
        info: wire::be32(file, 12),
        begin: wire::be32(file, 12 + w),
        size: wire::be16(file, 16 + w),
        count: wire::be16(file, 18 + w),
    }
}

fn check_name(file: &[u8]) -> Result<(), Refusal>
    ensures { number_of result ≡ name_number file.now }
{
    if file.len() < layout_of(2).header {
        return Err(Refusal::CutShort);
    }
    if wire::be48(file, 0) != 0x4D4C564C4700 {
        return Err(Refusal::WrongName);
    }
    if !mlg_values::is_served(wire::be16(file, 6)) {
        return Err(Refusal::Version);
    }
    Ok(())
}

// The fields' end.
pub(crate) fn fields_end(h: Header) -> usize
    ensures { result ≡ fields_end h }
{
    let layout = layout_of(h.version);
    layout.header + layout.field * usize::from(h.count)
}

// The places that a header names in a file of n bytes.
fn check_places(n: usize, h: Header) -> Result<(), Refusal>
    ensures { number_of result ≡ places_number n h }
{
    let end = fields_end(h);
    let begin = h.begin as usize;
    let info = h.info as usize;
    if n < end {
        return Err(Refusal::CutShort);
    }
    if begin < end {
        return Err(Refusal::Disagree);
    }
    if n < begin {
        return Err(Refusal::Disagree);
    }
    if info == 0 {
        return Ok(());
    }
    if info < end {
        return Err(Refusal::Disagree);
    }
    if begin <= info {
        return Err(Refusal::Disagree);
    }
    Ok(())
}

// The record length, which is the sum of the fields' sizes, and info's zero.
fn check_last(h: Header, total: usize, area: &Area) -> Result<(), Refusal>
    requires { (area.now.base ≡ fields_end h) × ((h.info ≡ 0 → ⊥) → fields_end h ≤ h.info) }
    ensures { (fields bytes : List ℕ) → total ≡ sizes h.version h.count fields → Tells area.now bytes
        → number_of result ≡ last_number h fields bytes }
{
    if total != usize::from(h.size) {
        return Err(Refusal::Disagree);
    }
    let info = h.info as usize;
    if info == 0 {
        return Ok(());
    }
    if !area.has_zero_from(info) {
        return Err(Refusal::WrongText);
    }
    Ok(())
}

// The area of a file whose places stand.
fn area_in(file: &[u8], h: Header) -> Area
    requires { places_number (length file.now) h ≡ 0 }
    ensures { (result.base ≡ fields_end h) × Tells result (area_in file.now h) }
{
    let end = fields_end(h);
    Area::of(end, &file[end..h.begin as usize], &[])
}

// A header that nothing refuses.
pub(crate) fn check_header(file: &[u8]) -> Result<Header, Refusal>
    ensures number { number_of result ≡ read_header_number file.now }
    ensures value { (h : Header) → result ≡ Ok h → h ≡ numbers_of file.now }
{
    check_name(file)?;
    let h = numbers(file);
    check_places(file.len(), h)?;
    let area = area_in(file, h);
    let total = area.check_fields(h.version, &file[layout_of(h.version).header..area.base])?;
    check_last(h, total, &area)?;
    Ok(h)
}

// What a file's header says.
pub fn read_header(file: &[u8]) -> Result<Header, Refusal>
    ensures { (result ≡ read_header_of file.now)
        × (head_answer result ≡ result_of no_header (read_header_number file.now) (numbers_of file.now))
        × HeaderNumber file.now (head_answer result).0 }
{
    check_header(file)
}
