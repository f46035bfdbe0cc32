// The lines of a file one after another.
ghost use Rattle.std.specs.Prelude.{◌≡◌, Ok};
ghost use Rattle.mlg_rules.specs.Header.{read_header_of};
ghost use Rattle.mlg_rules.specs.Log.{log_of};
ghost use Rattle.listing_rules.specs.Listing.{log_lines, headed_lines, list_of};
ghost use Rattle.listing.specs.Puts.{Puts};

use crate::text::Text;
use mlg::{Block, Header};

// "at most 65,536 bytes .. (longer: it prints `too long`)"
const LONGEST_FILE: usize = 65536;

impl<'a> Text<'a> {
    // The lines of a log's blocks, and of what ends it. (No `for`: each step is as long as the block that stands there.)
    fn put_log_lines(&mut self, file: &[u8], h: Header)
        requires { read_header_of file.now ≡ Ok h }
        ensures { Puts self.old (log_lines h file.now 0 (log_of h.size file.now h.begin)) self.new }
    {
        let mut n: u64 = 0;
        let mut place = h.begin as usize;
        loop {
            let block = mlg::read_block(file, h.size, n, place);
            self.put_block_line(file, h, n, block);
            let (Block::Data { .. } | Block::Mark { .. }) = block else {
                return;
            };
            place += mlg::length_of(block, h.size);
            n += 1;
        }
    }

    // The lines of a file whose header stands.
    fn put_headed_lines(&mut self, file: &[u8], h: Header)
        requires { read_header_of file.now ≡ Ok h }
        ensures { Puts self.old (headed_lines h file.now) self.new }
    {
        let fields = mlg_values::layout_of(h.version).header;
        self.put_header_line(h);
        self.put_field_lines(h.version, h.count, &file[fields..]);
        self.put_log_lines(file, h);
    }

    // The listing of a file.
    pub(crate) fn put_listing(&mut self, file: &[u8])
        ensures { Puts self.old (list_of file.now) self.new }
    {
        if LONGEST_FILE < file.len() {
            self.put_bytes(b"too long\n");
            return;
        }
        match mlg::read_header(file) {
            Ok(h) => self.put_headed_lines(file, h),
            Err(e) => self.put_refused_line(e.number(), 0),
        }
    }
}
