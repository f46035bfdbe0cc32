// FRD files, in the same way.
use crate::answers::{Answer, Kind, number, numbers, refused};
use crate::lines::{Words, part, room};
use crate::memories::changed;
use crate::mlgs::{counted, written};
use frd::Block;
use wire::Refusal;

// read_header LENGTH: the number, version, time, data begin, output length.
fn read_header(file: &[u8]) -> Answer {
    match frd::read_header(file) {
        Ok(h) => numbers(&[
            0,
            u64::from(h.version),
            u64::from(h.time),
            u64::from(h.begin),
            u64::from(h.size),
        ]),
        Err(e) => refused(e),
    }
}

// read_block LENGTH SIZE EARLIER PLACE: a block, data with time 0 and its bytes, the end, or the number and the place.
fn read_block(file: &[u8], size: u16, earlier: u64, at: u64) -> Answer {
    let block = frd::read_block(file, size, earlier, at as usize);
    let Block::Data {
        counter,
        start,
        as_expected,
    } = block
    else {
        let Block::Time {
            counter,
            time,
            as_expected,
        } = block
        else {
            let Block::Refused { number, place } = block else {
                return number(0).with_kind(Kind::End);
            };
            return numbers(&[u64::from(number), place as u64]);
        };
        return counted(counter, u64::from(time), as_expected, Kind::Time);
    };
    let bytes = part(file, start as u64, u64::from(size));
    counted(counter, 0, as_expected, Kind::Data).with_bytes(bytes)
}

// write_header PLACE ROOM TIME SIGNATURE LENGTH SIZE, write_data PLACE ROOM SIZE EARLIER | RECORD, write_time PLACE ROOM EARLIER TIME
fn write(out: &mut [u8], m: &[u8], a: &Words, bytes: &[u8]) -> Result<usize, Refusal> {
    match a.call() {
        b"write_he" => frd::write_header(out, a.u32(5), part(m, a.u64(6), a.u64(7)), a.u16(8)),
        b"write_da" => frd::write_data(out, a.u16(5), a.u64(6), bytes),
        _ => frd::write_time(out, a.u64(5), a.u32(6)),
    }
}

fn write_to(memory: &mut [u8], m: &[u8], a: &Words, bytes: &[u8]) -> Answer {
    let out = room(memory, a.u64(3), a.u64(4));
    let r = write(out, m, a, bytes);
    written(r, out)
}

pub(crate) fn call(memory: &mut [u8; 4096], a: &Words, bytes: &[u8]) -> Answer {
    let m = changed(*memory, a);
    let file = part(&m, 0, a.u64(3));
    match a.call() {
        b"read_hea" => read_header(file),
        b"read_blo" => read_block(file, a.u16(4), a.u64(5), a.u64(6)),
        _ => write_to(memory, &m, a, bytes),
    }
}
