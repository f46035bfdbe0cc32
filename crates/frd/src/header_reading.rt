// Reading a header.
ghost use Rattle.std.specs.Prelude.{◌≡◌, take, drop};
ghost use Rattle.wire.specs.Answer.{result_of};
ghost use Rattle.wire.specs.Log.{as_span};
ghost use Rattle.frd_rules.specs.Header.{numbers_of, signature_in, read_header_number, read_header_of, no_header, head_answer, read_signature_of};

use crate::Header;
use wire::{Extent, Refusal};

// The header's numbers, as they stand in the file.
fn numbers(file: &[u8]) -> Header
    ensures { result ≡ numbers_of file.now }
{
    Header {
        version: wire::be16(file, 6),
        time: wire::be32(file, 8),
        begin: wire::be32(file, 75),
        size: wire::be16(file, 79),
    }
}

// The header of a file.
pub fn read_header(file: &[u8]) -> Result<Header, Refusal>
    ensures { (result ≡ read_header_of file.now)
        × (head_answer result ≡ result_of no_header (read_header_number file.now) (numbers_of file.now)) }
{
    if file.len() < 81 {
        return Err(Refusal::CutShort);
    }
    if wire::be48(file, 0) != 0x465244000000 {
        return Err(Refusal::WrongName);
    }
    let h = numbers(file);
    if h.version != 1 {
        return Err(Refusal::Version);
    }
    if h.begin != 81 {
        return Err(Refusal::Disagree);
    }
    Ok(h)
}

// Where the signature of a file stands.
pub fn read_signature(file: &[u8]) -> Result<Extent, Refusal>
    ensures value { as_span result ≡ read_signature_of file.now }
    ensures part { (as_span result).number ≡ 0 → take (as_span result).len (drop (as_span result).start file.now) ≡ signature_in file.now }
{
    read_header(file)?;
    Ok(Extent { start: 12, len: 63 })
}
