// Lists the MLG on standard input. It takes no arguments.
#![tactic(auto)]

ghost use Rattle.std.specs.Prelude.{◌≡◌, ◌≤◌, length, take};
ghost use Rattle.listing_rules.specs.Listing.{list_of, LongInput};
ghost use Rattle.listing_rules.specs.Examples.{Examples};
ghost use Rattle.loglist.specs.Input.{Within};

use input::read_full;
use std::env::{Env, FillError};
use std::io;
use std::io::Read;

// Reads an input to its end, or until the buffer is full: how many bytes it read.
fn read_input<R: Read>(input: &mut R, buffer: &mut [u8]) -> io::Result<usize>
    ensures { Within result buffer.new }
{
    let (len, read) = read_full(input, buffer);
    read?;
    Ok(len)
}

// Writes the listing of a file, and hands back its length: no listing is longer than this buffer. With it stand 01's example, others, and
// what an input over the length lists.
fn listing_of(out: &mut [u8; 327680], file: &[u8]) -> usize
    ensures upper_bound { (result ≤ length out.new) × (take result out.new ≡ list_of file.now) }
    ensures examples { Examples }
    ensures long { LongInput }
{
    listing::list(out, file).unwrap_or(0)
}

// Says what went wrong, on standard error; that this can't be written either, nobody is told.
fn say(rt: &impl Eprint, message: &str) {
    let _ = rt.eprint(message);
}

// Lists standard input.
fn list_input(rt: &(impl io::Input + Print + Eprint)) {
    let mut file = [0u8; 65537];
    let Ok(n) = read_input(&mut rt.reader(), &mut file) else {
        say(rt, "loglist: standard input can't be read\n");
        return;
    };
    let mut out = [0u8; 327680];
    let len = listing_of(&mut out, &file[0..n]);
    if rt.write_all(&out[0..len]).is_err() {
        say(rt, "loglist: the listing can't be written\n");
    }
}

// Whether the program has an argument, however long.
fn has_argument(rt: &impl Env) -> bool {
    let mut word = [0u8; 1];
    !matches!(rt.arg(1, &mut word), Err(FillError::NotPresent))
}

fn main(rt: HostRuntime) {
    if has_argument(&rt) {
        say(
            &rt,
            "usage: loglist < FILE\nLists the MLG on standard input, of at most 65,536 bytes. It takes no arguments.\n",
        );
        return;
    }
    list_input(&rt);
}
