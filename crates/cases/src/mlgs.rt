// MLG files: the first bytes of the memory, with a line's changes.
use crate::answers::{Answer, Kind, number, numbers, pair, refused};
use crate::lines::{Words, part, room};
use crate::memories::changed;
use mlg::Block;
use wire::Refusal;
use wire::views::number_of;

// read_header LENGTH: the number, version, time, info start, data begin, record length, fields.
fn read_header(file: &[u8]) -> Answer {
    match mlg::read_header(file) {
        Ok(h) => numbers(&[
            0,
            u64::from(h.version),
            u64::from(h.time),
            u64::from(h.info),
            u64::from(h.begin),
            u64::from(h.size),
            u64::from(h.count),
        ]),
        Err(e) => refused(e),
    }
}

// Number 0, a block's counter, its time, 1 where the counter is as_expected, and its kind.
pub(crate) fn counted(counter: u8, time: u64, as_expected: bool, kind: Kind) -> Answer {
    numbers(&[0, u64::from(counter), time, u64::from(as_expected)]).with_kind(kind)
}

// read_block LENGTH SIZE EARLIER PLACE: a block with its record or text, the end, or the number and the place.
fn read_block(file: &[u8], size: u16, earlier: u64, at: u64) -> Answer {
    let block = mlg::read_block(file, size, earlier, at as usize);
    let Block::Data {
        counter,
        time,
        start,
        as_expected,
    } = block
    else {
        let Block::Mark {
            counter,
            time,
            start,
            len,
            as_expected,
        } = block
        else {
            let Block::Refused { number, place } = block else {
                return number(0).with_kind(Kind::End);
            };
            return numbers(&[u64::from(number), place as u64]);
        };
        let text = part(file, start as u64, len as u64);
        return counted(counter, u64::from(time), as_expected, Kind::Mark).with_text(text);
    };
    let record = part(file, start as u64, u64::from(size));
    counted(counter, u64::from(time), as_expected, Kind::Data).with_bytes(record)
}

// count_blocks LENGTH: the number that ends the blocks, how many there are, the place of the end.
fn count_blocks(file: &[u8]) -> Answer {
    let t = mlg::count_blocks(file);
    numbers(&[u64::from(number_of(t.ending)), t.count, t.place as u64])
}

// What a writer answers: the number, the length, and its output.
pub(crate) fn written(r: Result<usize, Refusal>, out: &[u8]) -> Answer {
    pair(r.map(|len| len as u64)).with_bytes(out)
}

// write_header PLACE ROOM TIME FIELDS LENGTH NAMES LENGTH INFO LENGTH
fn write_header(out: &mut [u8], m: &[u8], a: &Words) -> Result<usize, Refusal> {
    mlg::write_header(
        out,
        a.u32(5),
        part(m, a.u64(6), a.u64(7)),
        part(m, a.u64(8), a.u64(9)),
        part(m, a.u64(10), a.u64(11)),
    )
}

// write_data PLACE ROOM SIZE EARLIER TIME | RECORD, write_mark PLACE ROOM EARLIER TIME "TEXT"
fn write(out: &mut [u8], m: &[u8], a: &Words, bytes: &[u8]) -> Result<usize, Refusal> {
    match a.call() {
        b"write_he" => write_header(out, m, a),
        b"write_da" => mlg::write_data(out, a.u16(5), a.u64(6), a.u16(7), bytes),
        _ => mlg::write_mark(out, a.u64(5), a.u16(6), bytes),
    }
}

// Writes to a part of the memory. (FRD's is the same with its own writers, which take other numbers of the line.)
fn write_to(memory: &mut [u8], m: &[u8], a: &Words, bytes: &[u8]) -> Answer {
    let out = room(memory, a.u64(3), a.u64(4));
    let r = write(out, m, a, bytes);
    written(r, out)
}

pub(crate) fn call(memory: &mut [u8; 4096], a: &Words, bytes: &[u8]) -> Answer {
    let m = changed(*memory, a);
    let file = part(&m, 0, a.u64(3));
    match a.call() {
        b"read_hea" => read_header(file),
        b"read_blo" => read_block(file, a.u16(4), a.u64(5), a.u64(6)),
        b"count_bl" => count_blocks(file),
        _ => write_to(memory, &m, a, bytes),
    }
}
