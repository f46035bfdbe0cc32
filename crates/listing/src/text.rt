// A text put piece by piece into lent memory.
ghost use Rattle.std.specs.Prelude.{◌≡◌};
ghost use Rattle.listing_rules.specs.Text.{decimal, integer, printed_byte, printed};
ghost use Rattle.listing.specs.Puts.{Puts};

// The output, and how long the text is. What does not fit is left out, and counted all the same.
#[derive(Drop)]
pub(crate) struct Text<'a> {
    pub(crate) out: &'a mut [u8],
    pub(crate) len: usize,
}

impl<'a> Text<'a> {
    // Puts bytes.
    pub(crate) fn put_bytes(&mut self, bytes: &[u8])
        ensures { Puts self.old bytes.now self.new }
    {
        wire::put(self.out, self.len, bytes);
        self.len = self.len.saturating_add(bytes.len());
    }

    // Puts a number in decimal digits.
    pub(crate) fn put_decimal(&mut self, x: u64)
        ensures { Puts self.old (decimal x) self.new }
    {
        let mut digits = [0; 20];
        let len = io::decimal(x, &mut digits);
        self.put_bytes(&digits[..len]);
    }

    // Puts an integer, with `-` before a negative one.
    pub(crate) fn put_integer(&mut self, z: i64)
        ensures { Puts self.old (integer z) self.new }
    {
        if z < 0 {
            self.put_bytes(b"-");
        }
        self.put_decimal(z.unsigned_abs());
    }

    // Puts a text as it is printed: all at once, since byte by byte each would be tested for room.
    pub(crate) fn put_printed(&mut self, text: &[u8])
        ensures { Puts self.old (printed text.now) self.new }
    {
        let at = self.len;
        self.put_bytes(text);
        if self.len <= self.out.len() {
            make_printed(&mut self.out[at..self.len]);
        }
    }
}

// Turns a text into what is printed of it.
fn make_printed(text: &mut [u8])
    ensures { text.new ≡ printed text.old }
{
    for b in text {
        *b = printed_byte(*b);
    }
}

// A byte as it is printed: `.` for one outside 32..126.
#[tactic(auto, unfolding(listing_rules::specs::Text::printed_byte))]
fn printed_byte(b: u8) -> u8
    ensures { result ≡ printed_byte b }
{
    match b {
        32..=126 => b,
        _ => b'.',
    }
}
