// The bridge. Its first buffer is the first 512 bytes of the memory.
use crate::World;
use crate::answers::{Answer, number, numbers, pair, refused, unknown};
use crate::buses::{frame_of, with_frame};
use crate::lines::{Words, part, room};
use bridge::ending::{close, reset};
use bridge::incoming::frame;
use bridge::opening::{open_check, open_read, open_write};
use bridge::tickets::{bytes, status};
use bridge::{After, Bridge, Slot};
use wire::views::number_of;

// A state that no call has made; reset makes a fresh bridge of it.
pub(crate) fn unmade() -> Bridge {
    let slot = Slot {
        ticket: 0,
        offset: 0,
        phase: 0,
        kind: 0,
        device: 0,
        table: 0,
        count: 0,
        progress: 0,
        sends: 0,
        left: 0,
    };
    Bridge {
        slots: [slot; 4],
        issued: 0,
        own: 200,
        last: 9,
        rests: [99; 4],
    }
}

// open_read DEVICE TABLE OFFSET COUNT, open_write and open_check DEVICE TABLE OFFSET | BYTES: the number and the ticket.
fn opened(w: &mut World, o: After<u32>) -> Answer {
    w.bridge = o.bridge;
    pair(o.answer.map(u64::from))
}

fn opened_read(w: &mut World, a: &Words) -> Answer {
    let o = open_read(
        w.bridge,
        &w.memory[..512],
        &w.second,
        a.u8(3),
        a.u8(4),
        a.u16(5),
        a.u64(6) as usize,
    );
    opened(w, o)
}

fn opened_write(w: &mut World, a: &Words, bytes: &[u8]) -> Answer {
    let second = &w.second;
    let memory = room(&mut w.memory, 0, 512);
    let o = open_write(w.bridge, memory, second, a.u8(3), a.u8(4), a.u16(5), bytes);
    opened(w, o)
}

fn opened_check(w: &mut World, a: &Words, bytes: &[u8]) -> Answer {
    let o = open_check(
        w.bridge,
        &w.memory[..512],
        &mut w.second,
        a.u8(3),
        a.u8(4),
        a.u16(5),
        bytes,
    );
    opened(w, o)
}

// reset OWN, close TICKET, frame IDENTIFIER | BYTES: the number.
fn changed<T: Copy>(w: &mut World, c: After<T>) -> Answer {
    w.bridge = c.bridge;
    number(number_of(c.answer))
}

fn reset_to(w: &mut World, own: u8) -> Answer {
    w.turns = 0;
    changed(w, reset(w.bridge, own))
}

fn taken(w: &mut World, id: u32, bytes: &[u8]) -> Answer {
    let second = &w.second;
    let memory = room(&mut w.memory, 0, 512);
    let s = frame(w.bridge, memory, second, frame_of(id, bytes));
    changed(w, s)
}

// turn: the number, which turn it is, and the frame that it sends.
fn turn(w: &mut World) -> Answer {
    let s = bridge::turning::turn(w.bridge, &w.memory[..512], &w.second);
    w.bridge = s.bridge;
    w.turns = w.turns % 1000000 + 1;
    let a = numbers(&[u64::from(number_of(s.answer)), w.turns]);
    match s.answer {
        Ok(Some(f)) => with_frame(a, f),
        _ => a,
    }
}

// turns MOST TICKET: turns, until one sends or the ticket's status changes; the last one's answer.
fn turns(w: &mut World, most: u64, ticket: u32) -> Answer {
    let before = status(w.bridge, ticket);
    let mut answer = turn(w);
    for _ in 1..most {
        if answer.has_hex() || status(w.bridge, ticket) != before {
            break;
        }
        answer = turn(w);
    }
    answer
}

// bytes TICKET: the number and the part of the buffer.
fn bytes_of(w: &World, ticket: u32) -> Answer {
    match bytes(w.bridge, &w.memory[..512], ticket) {
        Ok(s) => number(0).with_bytes(s),
        Err(e) => refused(e),
    }
}

// What leaves the bridge as it is.
fn look(w: &World, a: &Words) -> Answer {
    match a.call() {
        // status TICKET: the number.
        b"status" => number(number_of(status(w.bridge, a.u32(3)))),
        b"bytes" => bytes_of(w, a.u32(3)),
        // second PLACE LENGTH: bytes of the second buffer.
        b"second" => number(0).with_bytes(part(&w.second, a.u64(3), a.u64(4))),
        // rests: each slot's turns left to rest.
        b"rests" => number(0).with_bytes(&w.bridge.rests),
        _ => unknown(),
    }
}

pub(crate) fn call(w: &mut World, a: &Words, bytes: &[u8]) -> Answer {
    match a.call() {
        b"open_rea" => opened_read(w, a),
        b"open_wri" => opened_write(w, a, bytes),
        b"open_che" => opened_check(w, a, bytes),
        b"frame" => taken(w, a.u32(3), bytes),
        b"reset" => reset_to(w, a.u8(3)),
        b"close" => changed(w, close(w.bridge, a.u32(3))),
        b"turn" => turn(w),
        b"turns" => turns(w, a.u64(3), a.u32(4)),
        _ => look(w, a),
    }
}
