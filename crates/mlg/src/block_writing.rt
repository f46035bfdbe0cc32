// Writing blocks.
ghost use Rattle.std.specs.Prelude.{◌≡◌, ◌+◌, ◌≤◌, length};
ghost use Rattle.wire.specs.Refusals.{number_of};
ghost use Rattle.wire.specs.Writer.{as_written, wrote, leaves};
ghost use Rattle.mlg_rules.specs.Block.{counter_after};
ghost use Rattle.mlg_rules.specs.Writing.{start_bytes, data_bytes, padded_text, mark_bytes, write_data_number, write_mark_number};
ghost use Rattle.mlg_rules.specs.RoundTrip.{DataBack, MarkBack, BlockSame};

use wire::Refusal;

// The first four bytes of a block.
fn start_bytes(kind: u8, counter: u8, time: u16) -> [u8; 4]
    ensures { result ≡ start_bytes kind counter time }
{
    let t = wire::two_bytes(time);
    [kind, counter, t[0], t[1]]
}

fn check_data(size: u16, bytes: &[u8], room: usize) -> Result<(), Refusal>
    ensures { number_of result ≡ write_data_number size bytes.now room }
{
    if bytes.len() != usize::from(size) {
        return Err(Refusal::Disagree);
    }
    if room < bytes.len() + 5 {
        return Err(Refusal::NoRoom);
    }
    Ok(())
}

fn put_data(out: &mut [u8], counter: u8, time: u16, bytes: &[u8])
    requires { length bytes.now + 5 ≤ length out.old }
    ensures { out.new ≡ leaves 0 (data_bytes counter time bytes.now) out.old }
{
    let head = start_bytes(0, counter, time);
    wire::put(out, 0, &head);
    wire::put(out, 4, bytes);
    let last = [wire::sum_of(bytes)];
    wire::put(out, bytes.len() + 4, &last);
}

// A mark's 50 bytes of text, zero-padded.
fn padded_text(text: &[u8]) -> [u8; 50]
    requires { length text.now ≤ 50 }
    ensures { result ≡ padded_text text.now }
{
    let mut pad = [0u8; 50];
    wire::put(&mut pad, 0, text);
    pad
}

fn check_mark(text: &[u8], room: usize) -> Result<(), Refusal>
    ensures { number_of result ≡ write_mark_number text.now room }
{
    if 49 < text.len() {
        return Err(Refusal::WrongText);
    }
    if wire::text_len(text) < text.len() {
        return Err(Refusal::WrongText);
    }
    if room < 54 {
        return Err(Refusal::NoRoom);
    }
    Ok(())
}

fn put_mark(out: &mut [u8], counter: u8, time: u16, text: &[u8])
    requires { (length text.now ≤ 49) × (54 ≤ length out.old) }
    ensures { out.new ≡ leaves 0 (mark_bytes counter time text.now) out.old }
{
    let head = start_bytes(1, counter, time);
    let pad = padded_text(text);
    wire::put(out, 0, &head);
    wire::put(out, 4, &pad);
}

// Writes a data block of the given record length after the given number of earlier blocks.
pub fn write_data(
    out: &mut [u8],
    size: u16,
    earlier: u64,
    time: u16,
    bytes: &[u8],
) -> Result<usize, Refusal>
    ensures fact { (as_written result ≡ wrote
        (write_data_number size bytes.now (length out.old))
        (data_bytes (counter_after earlier) time bytes.now))
        × (out.new ≡ leaves
        (write_data_number size bytes.now (length out.old))
        (data_bytes (counter_after earlier) time bytes.now) out.old) }
    ensures back { DataBack }
{
    check_data(size, bytes, out.len())?;
    put_data(out, wire::counter_after(earlier), time, bytes);
    Ok(bytes.len() + 5)
}

// Writes a mark after the given number of earlier blocks.
pub fn write_mark(out: &mut [u8], earlier: u64, time: u16, text: &[u8]) -> Result<usize, Refusal>
    ensures fact { (as_written result ≡ wrote
        (write_mark_number text.now (length out.old))
        (mark_bytes (counter_after earlier) time text.now))
        × (out.new ≡ leaves
        (write_mark_number text.now (length out.old))
        (mark_bytes (counter_after earlier) time text.now) out.old) }
    ensures back { MarkBack }
    ensures same { BlockSame }
{
    check_mark(text, out.len())?;
    put_mark(out, wire::counter_after(earlier), time, text);
    Ok(54)
}
