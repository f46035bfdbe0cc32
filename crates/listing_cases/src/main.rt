// Lists the files that its arguments name, each under its name and length. Of a long listing it writes the first and the last 200 bytes,
// the length and a sum.
#![tactic(auto)]

ghost use Rattle.std.specs.Prelude.{◌<◌};

use input::read_full;
use std::env::{Env, FillError};
use std::fs::File;
use std::rt::Files;

// What can't be printed is left out.
fn text(rt: &impl Print, s: &[u8]) {
    let _ = rt.write_all(s);
}

fn decimal(rt: &impl Print, x: u64) {
    let _ = rt.print(x);
}

// A number that tells texts apart.
fn sum_of(s: &[u8]) -> u64
    ensures { result < 1000003 }
{
    let mut sum = 0;
    for b in s {
        sum = (sum * 31 + u64::from(*b)) % 1000003;
    }
    sum
}

fn show(rt: &impl Print, s: &[u8]) {
    let len = s.len();
    if len <= 20000 {
        text(rt, s);
        return;
    }
    text(rt, &s[0..200]);
    text(rt, b"\n..\n");
    text(rt, &s[len - 200..]);
    decimal(rt, len as u64);
    text(rt, b" bytes, sum ");
    decimal(rt, sum_of(s));
    text(rt, b"\n");
}

fn list(rt: &impl Print, file: &[u8]) {
    text(rt, b", ");
    decimal(rt, file.len() as u64);
    text(rt, b" bytes\n");
    let mut out = [0u8; 327680];
    if let Ok(len) = listing::list(&mut out, file) {
        show(rt, &out[0..len]);
    }
}

// A file to be read, where its name is text and there is one.
fn open<R: Files>(rt: &R, name: &[u8]) -> Option<R::File> {
    let Ok(path) = str::from_utf8(name) else {
        return None;
    };
    File::open(rt, path).ok()
}

fn case<R: Files + Print>(rt: &R, name: &[u8]) {
    text(rt, b"== ");
    text(rt, name);
    let opened = open(rt, name);
    let Some(mut input) = opened else {
        text(rt, b" can't be opened\n");
        return;
    };
    let mut file = [0u8; 65537];
    let (n, _) = read_full(&mut input, &mut file);
    list(rt, &file[..n]);
}

// Argument i and its case: whether there is one. A name longer than any path is as an empty one.
fn argument<R: Env + Files + Print>(rt: &R, i: usize) -> bool {
    let mut name = [0u8; 4096];
    let given = rt.arg(i, &mut name);
    match given {
        Ok(len) => case(rt, &name[..len]),
        Err(FillError::TooLong) => case(rt, b""),
        Err(FillError::NotPresent) => return false,
    }
    true
}

fn main(rt: HostRuntime) {
    for i in 1..usize::MAX {
        if !argument(&rt, i) {
            return;
        }
    }
}
