// Reads the programs' input.
#![tactic(auto)]

ghost use Rattle.std.specs.Prelude.{◌≤◌, length, take};
ghost use Rattle.std.specs.Io.KnownBytes.{Consumes};

use std::io;
use std::io::Read;

// Reads until the buffer is full, the input ends or a read fails: how many bytes stand at the buffer's start then, and that failure.
pub fn read_full<R: Read>(input: &mut R, buffer: &mut [u8]) -> (usize, io::Result<()>)
    ensures bound { result.0 ≤ length buffer.new }
    ensures none_lost { Consumes (R.remaining input.old) (R.remaining input.new) (take result.0 buffer.new) }
{
    let mut len = 0;
    // no `for`: each read finds by how much the next one starts further on
    while len < buffer.len() {
        match input.read(&mut buffer[len..]) {
            Ok(0) => break,
            Ok(n) => len += n,
            Err(e) => return (len, Err(e)),
        }
    }
    (len, Ok(()))
}
