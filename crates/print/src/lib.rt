// Text put piece by piece into a lent output, and written at the end.
#![tactic(auto)]

ghost use Rattle.std.specs.Prelude.{◌≡◌, false, [], ◌∷◌, ◌<◌, min, max, length};
ghost use Rattle.io.specs.Digits.{hex_digit_ascii};
ghost use Rattle.print.specs.Print.{hex_byte, Puts, PutsNumber, put_bytes, next_bytes};

// An output and the place of the next piece, which each piece moves past itself. A piece that does not fit is left out, and the place stays.
#[derive(Drop)]
pub struct Page<'a> {
    pub out: &'a mut [u8],
    pub at: usize,
}

impl<'a> Page<'a> {
    // Puts a text.
    pub fn text(&mut self, s: &[u8])
        ensures puts { Puts self.old.out.now self.old.at s.now self.new.out.now self.new.at }
        ensures same_output { self.new.out.ghost_name ≡ self.old.out.ghost_name }
    {
        if s.len() <= self.out.len().saturating_sub(self.at) {
            wire::put(self.out, self.at, s);
            self.at += s.len();
        }
    }

    // Puts one byte as it is.
    pub fn byte(&mut self, b: u8)
        ensures puts { Puts self.old.out.now self.old.at (b ∷ []) self.new.out.now self.new.at }
        ensures same_output { self.new.out.ghost_name ≡ self.old.out.ghost_name }
    {
        self.text(&[b])
    }

    // Puts a number in decimal digits.
    pub fn decimal(&mut self, x: u64)
        ensures puts { PutsNumber 10 1 x self.old.out.now self.old.at self.new.out.now self.new.at }
        ensures same_output { self.new.out.ghost_name ≡ self.old.out.ghost_name }
    {
        let mut digits = [0u8; 20];
        let n = io::decimal(x, &mut digits);
        self.text(&digits[..n])
    }

    // Puts a number in hexadecimal digits, at least `width` of them.
    pub fn hex(&mut self, x: u64, width: usize)
        ensures puts { PutsNumber 16 (min (max width 1) 16) x self.old.out.now self.old.at self.new.out.now self.new.at }
        ensures same_output { self.new.out.ghost_name ≡ self.old.out.ghost_name }
    {
        let mut digits = [0u8; 16];
        let n = io::hex(x, width, &mut digits);
        self.text(&digits[..n])
    }

    // A space and a byte in two digits.
    fn hex_byte(&mut self, b: u8)
        ensures puts { Puts self.old.out.now self.old.at (hex_byte b) self.new.out.now self.new.at }
        ensures same_output { self.new.out.ghost_name ≡ self.old.out.ghost_name }
    {
        self.text(&[b' ', glyph(b / 16), glyph(b % 16)])
    }

    // Puts bytes, each in two hexadecimal digits after a space.
    pub fn bytes(&mut self, s: &[u8])
        ensures output { self.new.out.now ≡ put_bytes self.old.out.now self.old.at s.now }
        ensures place { self.new.at ≡ next_bytes self.old.out.now self.old.at s.now }
        ensures same_output { self.new.out.ghost_name ≡ self.old.out.ghost_name }
    {
        for b in s {
            self.hex_byte(*b);
        }
    }

    // Prints what stands before the place: whether all of it was written. The output has to be that long.
    pub fn flush<P: Print>(&self, to: &P) -> bool
        ensures { length self.now.out.now < self.now.at → result ≡ false }
    {
        match self.out.get(..self.at) {
            Some(text) => to.write_all(text).is_ok(),
            None => false,
        }
    }
}

// A digit below 16.
fn glyph(d: u8) -> u8
    requires { d < 16 }
    ensures { result ≡ hex_digit_ascii d }
{
    match d {
        0..10 => b'0' + d,
        _ => b'a' + (d - 10),
    }
}
