// What a reader checks of the fields.
ghost use Rattle.std.specs.Prelude.{◌≡◌, List, false, ℕ, ◌+◌, ◌-◌, ◌/◌, ◌<◌, ◌≤◌, ◌^◌, not, eqb, length, drop, get_or, Some, None, Ok};
ghost use Rattle.wire.specs.Refusals.{number_of};
ghost use Rattle.wire.specs.Text.{text_len, zeros, LastZeros};
ghost use Rattle.mlg.specs.Areas.{Tells};
ghost use Rattle.mlg_rules.specs.Layout.{field_len};
ghost use Rattle.mlg_rules.specs.Field.{field_size, type_number};
ghost use Rattle.mlg_rules.specs.Area.{ended, area_of};
ghost use Rattle.mlg_rules.specs.Fields.{unended, texts_number, names_number, field_number, fields_number, sizes};

use mlg_values::layout_of;
use wire::Refusal;

fn unended(d: &[u8], at: usize, n: usize) -> bool
    requires { (at + n ≤ length d.now) × (at + n < 2 ^ 64) }
    ensures { result ≡ unended d.now at n }
{
    n <= wire::text_len(&d[at..at + n])
}

fn check_texts(d: &[u8], version: u16) -> Result<(), Refusal>
    requires { length d.now ≡ field_len version }
    ensures { number_of result ≡ texts_number d.now }
{
    if unended(d, 1, 34) {
        return Err(Refusal::WrongText);
    }
    if unended(d, 35, 10) {
        return Err(Refusal::WrongText);
    }
    if unended(d, 55, 34) {
        return Err(Refusal::WrongText);
    }
    Ok(())
}

// Looks for a zero in one pass without an early return: false says that there is none.
fn has_zero(s: &[u8]) -> bool
    ensures { result ≡ false → zeros s.now ≡ 0 }
{
    let mut found = false;
    for b in s {
        if *b == 0 {
            found = true;
        }
    }
    found
}

// What is left before a place when pieces of 16 bytes without a zero are passed over: most of a long text. (No `for`: it goes down by 16, and
// what is left is handed on.)
fn skip_text(s: &[u8], end: usize) -> usize
    requires { end ≤ length s.now }
    ensures { (zeros (drop result s.now) ≡ zeros (drop end s.now)) × (result ≤ end) }
{
    let mut i = end;
    while 16 <= i {
        if has_zero(&s[i - 16..i]) {
            return i;
        }
        i -= 16;
    }
    i
}

// The place of the last zero before a place.
fn zero_before(s: &[u8], end: usize) -> Option<usize>
    requires { end ≤ length s.now }
    ensures none { result ≡ None → zeros s.now ≡ zeros (drop end s.now) }
    ensures some { (k : ℕ) → result ≡ Some k → (zeros (drop (k + 1) s.now) ≡ zeros (drop end s.now))
        × (zeros (drop k s.now) ≡ 1 + zeros (drop end s.now)) × (k < end) }
{
    let n = skip_text(s, end);
    for i in (0..n).rev() {
        if s[i] == 0 {
            return Some(i);
        }
    }
    None
}

// Bytes of info with its zero, none where it is empty.
pub(crate) fn ended_len(info: &[u8]) -> usize
    ensures { result ≡ length (ended info.now) }
{
    if info.is_empty() { 0 } else { info.len() + 1 }
}

// One more than the place, after the names, of the zero that info gets, and 0 where info is empty.
fn info_zero(names: &[u8], info: &[u8]) -> usize
    ensures { (length info.now ≡ 0 → result ≡ 0)
        × ((length info.now ≡ 0 → ⊥) → result ≡ length (area_of names.now info.now)) }
{
    if info.is_empty() {
        0
    } else {
        names.len() + info.len() + 1
    }
}

// How many zeros info gets.
fn info_zeros(info: &[u8]) -> usize
    requires { length info.now ≤ text_len info.now }
    ensures { (result ≡ zeros (ended info.now)) × (result ≤ 1) }
{
    if info.is_empty() { 0 } else { 1 }
}

// The places of the last 32 zeros of the names and info with its zero, from the end back, each counted from 1; 0 where there are fewer
// (so has `LastZeros`). Out of line, so that `Area::of` is short enough to stand in its callers: else these zero an Area by memset.
#[inline(never)]
fn last_zeros(names: &[u8], info: &[u8]) -> [usize; 32]
    requires { length info.now ≤ text_len info.now }
    ensures { LastZeros (area_of names.now info.now) result }
{
    let mut last = [0usize; 32];
    last[0] = info_zero(names, info);
    let mut end = names.len();
    for k in info_zeros(info)..32 {
        let Some(zero) = zero_before(names, end) else {
            return last;
        };
        last[k] = zero + 1;
        end = zero;
    }
    last
}

// What stands from the fields' end, `base`, to data begin: told by its length and by the places of its last zeros. A bit field has at most 32
// names, so the places of 32 zeros tell whether that many names lie after an index.
#[derive(Clone, Copy)]
pub(crate) struct Area {
    pub(crate) base: usize,
    len: usize,
    last: [usize; 32],
}

impl Area {
    // The area of names and of info with its zero.
    pub(crate) fn of(base: usize, names: &[u8], info: &[u8]) -> Area
        requires { length info.now ≤ text_len info.now }
        ensures base { result.base ≡ base }
        ensures told { Tells result (area_of names.now info.now) }
    {
        Area {
            base,
            len: names.len() + ended_len(info),
            last: last_zeros(names, info),
        }
    }

    // A bit field, which has a type from 10 on, has its names in the area.
    fn check_names(&self, d: &[u8]) -> Result<(), Refusal>
        requires { (55 ≤ length d.now) × (type_number (get_or d.now 0 0) (get_or d.now 51 0) ≡ 0) }
        ensures { (area : List ℕ) → Tells self.now area → number_of result ≡ names_number self.now.base area d.now }
    {
        if d[0] < 10 {
            return Ok(());
        }
        let bits = usize::from(d[51]);
        if bits == 0 {
            return Ok(());
        }
        let index = wire::be32(d, 47) as usize;
        if index < self.base {
            return Err(Refusal::Disagree);
        }
        let at = index - self.base;
        if self.len <= at {
            return Err(Refusal::Disagree);
        }
        if self.last[bits - 1] <= at {
            return Err(Refusal::WrongText);
        }
        Ok(())
    }

    // The size of a field that nothing refuses.
    fn check_field(&self, version: u16, d: &[u8]) -> Result<usize, Refusal>
        requires { length d.now ≡ field_len version }
        ensures number { (area : List ℕ) → Tells self.now area → number_of result ≡ field_number self.now.base area d.now }
        ensures size { (n : ℕ) → result ≡ Ok n → n ≡ field_size d.now }
    {
        mlg_values::check_type(d[0], d[51])?;
        check_texts(d, version)?;
        self.check_names(d)?;
        Ok(usize::from(mlg_values::size_of(d[0])))
    }

    // The sum of the sizes of fields of which nothing refuses one.
    pub(crate) fn check_fields(&self, version: u16, fields: &[u8]) -> Result<usize, Refusal>
        ensures number { (area : List ℕ) → Tells self.now area
            → number_of result ≡ fields_number version self.now.base area (length fields.now / field_len version) fields.now }
        ensures size { (n : ℕ) → result ≡ Ok n → n ≡ sizes version (length fields.now / field_len version) fields.now }
    {
        let mut total = 0;
        for d in fields.chunks_exact(layout_of(version).field) {
            total += self.check_field(version, d)?;
        }
        Ok(total)
    }

    // Whether info that starts at a place has its zero before data begin.
    pub(crate) fn has_zero_from(&self, at: usize) -> bool
        requires { self.now.base ≤ at }
        ensures { (area : List ℕ) → Tells self.now area → result ≡ not (eqb (zeros (drop (at - self.now.base) area)) 0) }
    {
        at - self.base < self.last[0]
    }
}
