// Identifiers, request bytes and the table holder.
use crate::World;
use crate::answers::{Answer, nothing, number, numbers, pair, refused, unknown};
use crate::lines::{Words, part, room};
use bus::{Directory, Frame, HolderState, Parts, Request};
use wire::views::number_of;

// pack OFFSET TYPE FROM TO TABLE: the number and the identifier.
fn pack(a: &Words) -> Answer {
    let packed = bus::ident::pack(Parts {
        offset: a.u16(3),
        kind: a.u8(4),
        from: a.u8(5),
        to: a.u8(6),
        table: a.u8(7),
    });
    match packed {
        Ok(id) => number(0).with_hex(id),
        Err(e) => refused(e),
    }
}

// unpack IDENTIFIER: the number, offset, type, from, to, table.
fn unpack(id: u32) -> Answer {
    match bus::ident::unpack(id) {
        Ok(p) => numbers(&[
            0,
            u64::from(p.offset),
            u64::from(p.kind),
            u64::from(p.from),
            u64::from(p.to),
            u64::from(p.table),
        ]),
        Err(e) => refused(e),
    }
}

// read_request | BYTES: table, offset, count, and 1 if the reserved bits are clear.
fn read_request(b: [u8; 8]) -> Answer {
    let r = bus::requests::read_request(b[0], b[1], b[2]);
    let q = r.request;
    numbers(&[
        u64::from(q.table),
        u64::from(q.offset),
        u64::from(q.count),
        u64::from(r.clear),
    ])
}

// request_bytes TABLE OFFSET COUNT: the number and the bytes, zeros in a refusal.
fn request_bytes(table: u8, offset: u16, count: u8) -> Answer {
    let r = bus::requests::request_bytes(Request {
        table,
        offset,
        count,
    });
    number(number_of(r)).with_bytes(&r.unwrap_or([0; 3]))
}

// The frame of an identifier and bytes.
pub(crate) fn frame_of(id: u32, bytes: &[u8]) -> Frame {
    Frame {
        id,
        len: (bytes.len() % 256) as u8,
        bytes: bus::frames::padded(bytes),
    }
}

// An answer with a frame.
pub(crate) fn with_frame(a: Answer, f: Frame) -> Answer {
    a.with_bytes(part(&f.bytes, 0, u64::from(f.len)))
        .with_hex(f.id)
}

// serve LENGTH IDENTIFIER FLASH | BYTES: the number, the mark, and the frame answered; the state is then the one handed back. A flash is as
// long as the memory where a line gives no length.
fn serve(w: &mut World, a: &Words, bytes: &[u8]) -> Answer {
    let len = a.u64(3);
    let memory = room(&mut w.memory, 0, len);
    let flash = room(&mut w.flash, 0, a.given(5).unwrap_or(len));
    let answered = bus::holder::serve(
        w.directory,
        w.state,
        memory,
        flash,
        frame_of(a.u32(4), bytes),
    );
    w.state = answered.state;
    match answered.served {
        Ok(Some(reply)) => with_frame(pair(Ok(u64::from(reply.clear))), reply.frame),
        Ok(None) => pair(Ok(0)),
        Err(e) => pair(Err(e)),
    }
}

// first FAMILY: the number; the state is then that family's first, zeros in a refusal.
fn first(w: &mut World, family: u8) -> Answer {
    let r = bus::holder::first_state(family);
    w.state = r.unwrap_or(state(0, 0, 0));
    number(number_of(r))
}

// state FAMILY HAS_CURRENT CURRENT
pub(crate) fn state(family: u8, has_current: u8, current: u8) -> HolderState {
    HolderState {
        family,
        has_current,
        current,
    }
}

fn set_state(w: &mut World, a: &Words) -> Answer {
    w.state = state(a.u8(3), a.u8(4), a.u8(5));
    nothing()
}

// current: the state's family, 1 where a table is current, and that table.
fn state_numbers(s: HolderState) -> Answer {
    numbers(&[
        u64::from(s.family),
        u64::from(s.has_current),
        u64::from(s.current),
    ])
}

// device OWN: a directory without tables.
pub(crate) fn device(own: u8) -> Directory {
    Directory {
        sizes: [0; 32],
        rights: [0; 32],
        table_blocking: 0,
        write_blocking: 0,
        own,
    }
}

// It begins with the first state of family 3.
fn set_device(w: &mut World, own: u8) -> Answer {
    w.directory = device(own);
    w.state = state(3, 0, 0);
    nothing()
}

// table TABLE SIZE RIGHT
fn set_table(w: &mut World, k: u64, size: u16, right: u8) -> Answer {
    let k = k as usize;
    if k < 32 {
        w.directory.sizes[k] = size;
        w.directory.rights[k] = right;
    }
    nothing()
}

pub(crate) fn call(w: &mut World, a: &Words, bytes: &[u8]) -> Answer {
    match a.call() {
        b"pack" => pack(a),
        b"unpack" => unpack(a.u32(3)),
        b"read_req" => read_request(bus::frames::padded(bytes)),
        b"request_" => request_bytes(a.u8(3), a.u16(4), a.u8(5)),
        b"device" => set_device(w, a.u8(3)),
        b"table" => set_table(w, a.u64(3), a.u16(4), a.u8(5)),
        b"serve" => serve(w, a, bytes),
        b"first" => first(w, a.u8(3)),
        b"state" => set_state(w, a),
        b"current" => state_numbers(w.state),
        _ => unknown(),
    }
}
