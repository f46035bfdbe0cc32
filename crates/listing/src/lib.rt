// The listing of an MLG as text.
#![tactic(auto)]

mod lines;
mod text;
mod whole;

ghost use Rattle.std.specs.Prelude.{◌≡◌, ◌≤◌, not, ltb, length};
ghost use Rattle.wire.specs.Writer.{as_written, wrote, leaves};
ghost use Rattle.listing_rules.specs.Listing.{list_of, list_number};
ghost use Rattle.listing_rules.specs.Longest.{longest};

use text::Text;
use wire::Refusal;

// No listing is longer.
const LONGEST: usize = 327680;

// How long the listing of a file is.
fn measure(file: &[u8]) -> usize
    ensures { result ≡ length (list_of file.now) }
{
    let mut text = Text {
        out: &mut [],
        len: 0,
    };
    text.put_listing(file);
    text.len
}

// Whether the listing of a file fits.
fn fits(room: usize, file: &[u8]) -> bool
    ensures { result ≡ not (ltb room (length (list_of file.now))) }
{
    LONGEST <= room || measure(file) <= room
}

// Writes the listing of a file; refused where it does not fit. No listing is longer than `longest`.
pub fn list(out: &mut [u8], file: &[u8]) -> Result<usize, Refusal>
    ensures value { (as_written result ≡ wrote (list_number file.now (length out.old)) (list_of file.now))
        × (out.new ≡ leaves (list_number file.now (length out.old)) (list_of file.now) out.old) }
    ensures file_len_bound { length (list_of file.now) ≤ longest }
{
    if !fits(out.len(), file) {
        return Err(Refusal::NoRoom);
    }
    let mut text = Text { out, len: 0 };
    text.put_listing(file);
    Ok(text.len)
}
