// Frames of parts and bytes, and the bytes of frames.
ghost use Rattle.std.specs.Prelude.{◌≡◌, ◌+◌, ◌≤◌, length};
ghost use Rattle.std.proofs.lemmas.List.Edits.{sets};
ghost use Rattle.wire.specs.Put.{put_of};
ghost use Rattle.bus_rules.specs.Frames.{padded, build_of, content};
ghost use Rattle.bus_rules.specs.Rows.{Built};

use crate::rows::id_in_rows;
use crate::{Frame, Parts};

// The frame of these parts, each modulo 2 to the width of its row (the table: of both), and of the first eight bytes: of parts that pack
// and at most eight bytes the frame that they make. One loop copies and counts: so it is short enough to be inlined.
pub fn build(p: Parts, bytes: &[u8]) -> Frame
    ensures value { result ≡ build_of p bytes.now }
    ensures built { Built p bytes.now result }
{
    let id = id_in_rows(p);
    let mut first = [0u8; 8];
    let mut len: u8 = 0;
    for i in 0..8 {
        if i < bytes.len() {
            first[i] = bytes[i];
            len += 1;
        }
    }
    Frame {
        id,
        len,
        bytes: first,
    }
}

// The first eight bytes given, and zeros where there are fewer: the bytes of a frame, whatever its parts (here all 0, written out).
pub fn padded(bytes: &[u8]) -> [u8; 8]
    ensures { result ≡ padded bytes.now }
{
    let parts = Parts {
        offset: 0,
        kind: 0,
        from: 0,
        to: 0,
        table: 0,
    };
    build(parts, bytes).bytes
}

// How many bytes of a frame count.
fn content_len(f: Frame) -> usize
    ensures { result ≡ length (content f) }
{
    if f.len < 8 { f.len as usize } else { 8 }
}

// The bytes of a frame that count, copied to a place. Eight tests of the length are quicker than a call of memcpy.
pub(crate) fn copy_content(out: &mut [u8], at: usize, f: Frame)
    requires { at + length (content f) ≤ length out.old }
    ensures { out.new ≡ sets out.old at (content f) }
{
    let n = f.len as usize;
    for i in 0..8 {
        if i < n {
            out[at + i] = f.bytes[i];
        }
    }
}

// Puts the bytes of a frame that count at a place of the output; nothing changes where they do not fit.
pub fn put_content(out: &mut [u8], at: usize, f: Frame)
    ensures { out.new ≡ put_of out.old at (content f) }
{
    if out.len() < at {
        return;
    }
    if out.len() - at < content_len(f) {
        return;
    }
    copy_content(out, at, f);
}
