// Writing a header and blocks.
ghost use Rattle.std.specs.Prelude.{◌≡◌, length};
ghost use Rattle.wire.specs.Writer.{as_written, wrote, leaves};
ghost use Rattle.frd_rules.specs.Block.{counter_after};
ghost use Rattle.frd_rules.specs.Writing.{header_bytes, write_header_number, data_bytes, write_data_number, time_bytes, write_time_number};
ghost use Rattle.frd_rules.specs.RoundTrip.{HeaderBack, DataBack, TimeBack, LogBack, LogSame};
ghost use Rattle.frd_rules.specs.Examples.{Examples};

use wire::Refusal;

// Writes a header with a time, a signature and an output length.
pub fn write_header(
    out: &mut [u8],
    time: u32,
    signature: &[u8],
    size: u16,
) -> Result<usize, Refusal>
    ensures value { (as_written result ≡ wrote (write_header_number time signature.now size (length out.old))
        (header_bytes time signature.now size))
        × (out.new ≡ leaves (write_header_number time signature.now size (length out.old))
        (header_bytes time signature.now size) out.old) }
    ensures back { HeaderBack time signature.now size }
    ensures logs { LogBack × LogSame }
    ensures examples { Examples }
{
    if signature.len() != 63 {
        return Err(Refusal::Disagree);
    }
    if out.len() < 81 {
        return Err(Refusal::NoRoom);
    }
    let t = wire::four_bytes(time);
    let first = [0x46, 0x52, 0x44, 0, 0, 0, 0, 1, t[0], t[1], t[2], t[3]];
    let s = wire::two_bytes(size);
    let last = [0, 0, 0, 81, s[0], s[1]];
    wire::put(out, 0, &first);
    wire::put(out, 12, signature);
    wire::put(out, 75, &last);
    Ok(81)
}

// Writes a data block after the given number of blocks.
pub fn write_data(out: &mut [u8], size: u16, earlier: u64, bytes: &[u8]) -> Result<usize, Refusal>
    ensures value { (as_written result ≡ wrote (write_data_number size (counter_after earlier) bytes.now (length out.old))
        (data_bytes (counter_after earlier) bytes.now))
        × (out.new ≡ leaves (write_data_number size (counter_after earlier) bytes.now (length out.old))
        (data_bytes (counter_after earlier) bytes.now) out.old) }
    ensures back { DataBack size earlier bytes.now }
{
    let len = bytes.len();
    if len != usize::from(size) {
        return Err(Refusal::Disagree);
    }
    if out.len() < len + 2 {
        return Err(Refusal::NoRoom);
    }
    let first = [1, wire::counter_after(earlier)];
    wire::put(out, 0, &first);
    wire::put(out, 2, bytes);
    Ok(len + 2)
}

// Writes a time block after the given number of blocks.
pub fn write_time(out: &mut [u8], earlier: u64, time: u32) -> Result<usize, Refusal>
    ensures value { (as_written result ≡ wrote (write_time_number (counter_after earlier) time (length out.old))
        (time_bytes (counter_after earlier) time))
        × (out.new ≡ leaves (write_time_number (counter_after earlier) time (length out.old))
        (time_bytes (counter_after earlier) time) out.old) }
    ensures back { TimeBack earlier time }
{
    if out.len() < 6 {
        return Err(Refusal::NoRoom);
    }
    let t = wire::four_bytes(time);
    let bytes = [2, wire::counter_after(earlier), t[0], t[1], t[2], t[3]];
    wire::put(out, 0, &bytes);
    Ok(6)
}
