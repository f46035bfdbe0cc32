// Runs the worked cases of every layer. Each line of standard input is a case, `LABEL: LAYER CALL NUMBERS | BYTES`: the program makes the
// call and prints the line and what the call answers. A line without a colon is a heading.
#![tactic(auto)]

mod answers;
mod bridges;
mod buses;
mod frds;
mod lines;
mod memories;
mod mlgs;
mod values;

ghost use Rattle.reckonings.specs.Reckonings.{Reckonings};

use answers::{Answer, nothing, unknown};
use bridge::Bridge;
use bus::{Directory, HolderState};
use input::read_full;
use lines::{Words, bytes_of, words_of};
use print::Page;

// What the calls change: the memory and the flash that they are lent, a device's directory and state, a bridge, its second buffer, how many
// turns it has had.
#[derive(Clone, Copy)]
struct World {
    memory: [u8; 4096],
    flash: [u8; 4096],
    directory: Directory,
    state: HolderState,
    bridge: Bridge,
    second: [u8; 512],
    turns: u64,
}

// A layer and a call go by the first eight letters of their names.
fn call(w: &mut World, a: &Words, bytes: &[u8]) -> Answer {
    match a.layer() {
        b"bus" => buses::call(w, a, bytes),
        b"bridge" => bridges::call(w, a, bytes),
        b"mlg" => mlgs::call(&mut w.memory, a, bytes),
        b"frd" => frds::call(&mut w.memory, a, bytes),
        b"value" => values::call(a, bytes),
        b"memory" => memories::call(&mut w.memory, a, bytes),
        b"flash" => memories::call(&mut w.flash, a, bytes),
        _ => unknown(),
    }
}

// What a line answers: nothing for a heading.
fn case(w: &mut World, line: &[u8]) -> Answer {
    let Some(colon) = line.iter().position(|b| *b == b':') else {
        return nothing();
    };
    let text = &line[colon..];
    let bar = text.iter().position(|b| matches!(*b, b'|' | b'"'));
    let (words, bytes) = text.split_at(bar.unwrap_or(text.len()));
    call(w, &words_of(words), bytes_of(bytes).as_slice())
}

// Puts every line with its answer.
fn cases(page: &mut Page, s: &[u8]) {
    let mut w = World {
        memory: [0; 4096],
        flash: [0; 4096],
        directory: buses::device(0),
        state: buses::state(3, 0, 0),
        bridge: bridges::unmade(),
        second: [0; 512],
        turns: 0,
    };
    for line in s.split_inclusive(|b| *b == b'\n') {
        let line = line.strip_suffix(b"\n").unwrap_or(line);
        let answer = case(&mut w, line);
        page.text(line);
        answer.put(page);
    }
}

// The cases that 01 marks * are proved of the definitions, as one table.
fn run(rt: &impl Print, s: &[u8])
    ensures reckoned { Reckonings }
{
    let mut out = [0u8; 65536];
    let mut page = Page {
        out: &mut out,
        at: 0,
    };
    cases(&mut page, s);
    page.flush(rt);
}

fn main(rt: HostRuntime) {
    let mut input = [0u8; 65536];
    let (n, _) = read_full(&mut rt.reader(), &mut input);
    run(&rt, &input[..n]);
}
