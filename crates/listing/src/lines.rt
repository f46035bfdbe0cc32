// The lines of a listing.
ghost use Rattle.std.specs.Prelude.{◌≡◌, ℕ, List, ◌++◌, ◌*◌, ◌≤◌, length};
ghost use Rattle.mlg_rules.specs.Layout.{field_len};
ghost use Rattle.mlg_rules.specs.Raw.{value_number};
ghost use Rattle.mlg_rules.specs.declared.Header.{Header};
ghost use Rattle.mlg_rules.specs.declared.Block.TheVariants.{End, Refused};
ghost use Rattle.listing_rules.specs.Text.{decimal, printed};
ghost use Rattle.listing_rules.specs.Lines.{space, header_line, name_of, field_line, field_lines, value_text, values_text, as_expected_text, block_line};
ghost use Rattle.listing_rules.specs.BlockInFile.{ValuesNotRefused, BlockInFile};
ghost use Rattle.listing.specs.Puts.{Puts};

use crate::text::Text;
use mlg::{Block, Header};

impl<'a> Text<'a> {
    // `fields N record L`
    pub(crate) fn put_header_line(&mut self, h: Header)
        ensures { Puts self.old (header_line h) self.new }
    {
        self.put_bytes(b"fields ");
        self.put_decimal(u64::from(h.count));
        self.put_bytes(b" record ");
        self.put_decimal(u64::from(h.size));
        self.put_bytes(b"\n");
    }

    // A field's name, as it is printed.
    fn put_name(&mut self, field: &[u8])
        requires { 35 ≤ length field.now }
        ensures { Puts self.old (printed (name_of field.now)) self.new }
    {
        let len = wire::text_len(&field[1..35]);
        self.put_printed(&field[1..1 + len]);
    }

    // `field I T NAME`. It stands alone, since within the whole listing its name is searched with too few registers.
    #[inline(never)]
    fn put_field_line(&mut self, index: u16, field: &[u8])
        requires { 35 ≤ length field.now }
        ensures { Puts self.old (field_line index field.now) self.new }
    {
        self.put_bytes(b"field ");
        self.put_decimal(u64::from(index));
        self.put_bytes(b" ");
        self.put_decimal(u64::from(field[0]));
        self.put_bytes(b" ");
        self.put_name(field);
        self.put_bytes(b"\n");
    }

    // The lines of the first fields of these bytes.
    pub(crate) fn put_field_lines(&mut self, version: u16, count: u16, fields: &[u8])
        requires { field_len version * count ≤ length fields.now }
        ensures { Puts self.old (field_lines version 0 count fields.now) self.new }
    {
        let layout = mlg_values::layout_of(version);
        for (index, field) in (0..count).zip(fields.chunks_exact(layout.field)) {
            self.put_field_line(index, field);
        }
    }

    // A space and a raw value.
    fn put_value(&mut self, field: &[u8], raw: &[u8])
        requires { value_number 2 field.now raw.now ≡ 0 }
        ensures { Puts self.old (value_text field.now raw.now) self.new }
    {
        if let Ok(z) = mlg_values::raw_value(field, raw) {
            self.put_bytes(b" ");
            self.put_integer(z);
        }
    }

    // The raw values of the first fields of these bytes.
    fn put_values(&mut self, version: u16, count: u16, fields: &[u8], bytes: &[u8])
        requires { ValuesNotRefused version count fields.now bytes.now }
        ensures { Puts self.old (values_text version count fields.now bytes.now) self.new }
    {
        let layout = mlg_values::layout_of(version);
        let mut rest = bytes;
        for field in fields.chunks_exact(layout.field).take(usize::from(count)) {
            let (raw, after) = rest.split_at(usize::from(mlg_values::size_of(field[0])));
            self.put_value(field, raw);
            rest = after;
        }
    }

    // ` !` for a wrong counter.
    fn put_as_expected(&mut self, as_expected: bool)
        ensures { Puts self.old (as_expected_text as_expected) self.new }
    {
        if !as_expected {
            self.put_bytes(b" !");
        }
    }

    // A block's number, kind, counter and time.
    fn put_start(&mut self, n: u64, kind: &[u8], counter: u8, time: u16)
        ensures { Puts self.old (decimal n ++ kind.now ++ decimal counter ++ space ++ decimal time) self.new }
    {
        self.put_decimal(n);
        self.put_bytes(kind);
        self.put_decimal(u64::from(counter));
        self.put_bytes(b" ");
        self.put_decimal(u64::from(time));
    }

    // `end N`
    fn put_end_line(&mut self, n: u64)
        ensures { (h : Header) (f : List ℕ) → Puts self.old (block_line h f n End) self.new }
    {
        self.put_bytes(b"end ");
        self.put_decimal(n);
        self.put_bytes(b"\n");
    }

    // `refused N at PLACE`
    pub(crate) fn put_refused_line(&mut self, number: u8, place: usize)
        ensures { (h : Header) (f : List ℕ) (n : ℕ) → Puts self.old (block_line h f n (Refused number place)) self.new }
    {
        self.put_bytes(b"refused ");
        self.put_decimal(u64::from(number));
        self.put_bytes(b" at ");
        self.put_decimal(place as u64);
        self.put_bytes(b"\n");
    }

    // `N data C T VALUES`, `N mark C T TEXT`, `end N` or `refused N at PLACE`
    pub(crate) fn put_block_line(&mut self, file: &[u8], h: Header, n: u64, block: Block)
        requires { BlockInFile h file.now block }
        ensures { Puts self.old (block_line h file.now n block) self.new }
    {
        let Block::Data {
            counter,
            time,
            start,
            as_expected,
        } = block
        else {
            let Block::Mark {
                counter,
                time,
                start,
                len,
                as_expected,
            } = block
            else {
                let Block::Refused { number, place } = block else {
                    self.put_end_line(n);
                    return;
                };
                self.put_refused_line(number, place);
                return;
            };
            self.put_start(n, b" mark ", counter, time);
            self.put_bytes(b" ");
            self.put_printed(&file[start..start + len]);
            self.put_as_expected(as_expected);
            self.put_bytes(b"\n");
            return;
        };
        let fields = mlg_values::layout_of(h.version).header;
        let end = start + usize::from(h.size);
        self.put_start(n, b" data ", counter, time);
        self.put_values(h.version, h.count, &file[fields..], &file[start..end]);
        self.put_as_expected(as_expected);
        self.put_bytes(b"\n");
    }
}
