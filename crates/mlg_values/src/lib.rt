// Values of an MLG's fields: the version's layout, types, raw values and shown values.
#![tactic(auto)]

ghost use Rattle.std.specs.Prelude.{◌≡◌, ◌<◌, true, false, not, leb, length, get_or, pos, Ok, Err, Float};
ghost use Rattle.std.specs.Int.Signed.{mag};
ghost use Rattle.std.specs.Float.{binary32};
ghost use Rattle.std.specs.Float.Ieee.{of_int, of_bits};
ghost use Rattle.wire.specs.Answer.{result_of};
ghost use Rattle.wire.specs.BigEndian.{be_at};
ghost use Rattle.wire.specs.Order.{◌if◌else◌};
ghost use Rattle.wire.specs.Refusals.{code, number_of};
ghost use Rattle.wire.specs.declared.refusal.Refusal.{Refusal};
ghost use Rattle.mlg_rules.specs.declared.Scaling.{Scaling};
ghost use Rattle.mlg_rules.specs.Layout.{served, layout_of};
ghost use Rattle.mlg_rules.specs.Types.{size_of};
ghost use Rattle.mlg_rules.specs.Field.{type_number, type_of};
ghost use Rattle.mlg_rules.specs.Raw.{value_field_number, value_number, raw_of, raw_value_of, raw_answer};
ghost use Rattle.mlg_rules.specs.Shown.{shows, finite, raw_float, scaled, scaled_number, apply_of, shown_number, shown_of};
ghost use Rattle.mlg_rules.specs.Shown.{shown_value_of, zero_float, shown_answer};
ghost use Rattle.mlg_rules.specs.Shown.{scaling_in, parts_number, scaling_number, scaling_of, zero_scaling, scaling_answer};
ghost use Rattle.mlg_values.specs.Kinds.{kind_number, KindOf};
ghost use Rattle.mlg_values.specs.declared.Kind.{Kind};

pub use mlg_rules::{Layout, Scaling};
use wire::Refusal;

// Whether a version is served.
pub fn is_served(version: u16) -> bool
    ensures { result ≡ served version }
{
    version == 2
}

// The layout of a version: one for every version so far. Who calls judges the version first.
pub fn layout_of(version: u16) -> Layout
    ensures { result ≡ layout_of version }
{
    Layout {
        header: 24,
        info: 4,
        field: 89,
    }
}

// The types of fields; `of` has their numbers.
#[derive(Clone, Copy, Debug, PartialEq, Eq)]
enum Kind {
    U08,
    S08,
    U16,
    S16,
    U32,
    S32,
    S64,
    F32,
    Bits8,
    Bits16,
    Bits32,
}

impl Kind {
    // The type with a number, if there is one.
    #[tactic(auto, using(mlg_rules::proofs::TypeLaws::size_gap))]
    fn of(number: u8) -> Option<Kind>
        ensures { KindOf number result }
    {
        match number {
            0 => Some(Kind::U08),
            1 => Some(Kind::S08),
            2 => Some(Kind::U16),
            3 => Some(Kind::S16),
            4 => Some(Kind::U32),
            5 => Some(Kind::S32),
            6 => Some(Kind::S64),
            7 => Some(Kind::F32),
            10 => Some(Kind::Bits8),
            11 => Some(Kind::Bits16),
            12 => Some(Kind::Bits32),
            _ => None,
        }
    }

    // Bytes of a raw value.
    #[tactic(auto, unfolding(mlg_rules::specs::Types::size_of))]
    fn size(self) -> u8
        ensures { result ≡ size_of (kind_number self) }
    {
        match self {
            Kind::U08 | Kind::S08 | Kind::Bits8 => 1,
            Kind::U16 | Kind::S16 | Kind::Bits16 => 2,
            Kind::U32 | Kind::S32 | Kind::F32 | Kind::Bits32 => 4,
            Kind::S64 => 8,
        }
    }

    fn is_bits(self) -> bool
        ensures { result ≡ leb 10 (kind_number self) }
    {
        matches!(self, Kind::Bits8 | Kind::Bits16 | Kind::Bits32)
    }

    // Whether a type has a shown value.
    #[tactic(auto, unfolding(mlg_rules::specs::Shown::shows))]
    fn is_shown(self) -> bool
        ensures { result ≡ shows (kind_number self) }
    {
        matches!(
            self,
            Kind::U08 | Kind::S08 | Kind::U16 | Kind::S16 | Kind::F32
        )
    }
}

const SIZES: [u8; 13] = [1, 1, 2, 2, 4, 4, 8, 4, 0, 0, 1, 2, 4];

// Bytes of a raw value of a type, 0 for a number that is no type. The definition's table, and no match by `Kind`: a listing asks it of each
// value, and would jump by a table of its own.
#[tactic(auto, unfolding(mlg_rules::specs::Types::size_of))]
pub fn size_of(kind: u8) -> u8
    ensures { result ≡ size_of kind }
{
    SIZES.get(usize::from(kind)).copied().unwrap_or(0)
}

// The byte at a place, 0 where there is none.
fn byte_at(s: &[u8], at: usize) -> u8
    ensures { result ≡ get_or s.now at 0 }
{
    s.get(at).copied().unwrap_or(0)
}

// A field's type, by its number and the field's bits: refused where there is none, or where a bit field has more bits than its width.
fn checked_kind(number: u8, bits: u8) -> Result<Kind, Refusal>
    ensures number { number_of result ≡ type_number number bits }
    ensures kind { (k : Kind) → result ≡ Ok k → kind_number k ≡ number }
{
    let Some(kind) = Kind::of(number) else {
        return Err(Refusal::FieldType);
    };
    if !kind.is_bits() {
        return Ok(kind);
    }
    if 8 * kind.size() < bits {
        return Err(Refusal::FieldType);
    }
    Ok(kind)
}

// The same, without the type.
pub fn check_type(kind: u8, bits: u8) -> Result<(), Refusal>
    ensures { number_of result ≡ type_number kind bits }
{
    checked_kind(kind, bits)?;
    Ok(())
}

// The type of a field, which has the version's length.
fn check_field(version: u16, field: &[u8]) -> Result<Kind, Refusal>
    ensures number { number_of result ≡ value_field_number version field.now }
    ensures kind { (k : Kind) → result ≡ Ok k → kind_number k ≡ type_of field.now }
{
    if field.len() != layout_of(version).field {
        return Err(Refusal::Disagree);
    }
    checked_kind(byte_at(field, 0), byte_at(field, 51))
}

// The same, where raw bytes have the type's length: that of its number, which who calls has mostly looked up.
fn check_value(version: u16, field: &[u8], raw: &[u8]) -> Result<Kind, Refusal>
    ensures number { number_of result ≡ value_number version field.now raw.now }
    ensures kind { (k : Kind) → result ≡ Ok k → kind_number k ≡ type_of field.now }
{
    let kind = check_field(version, field)?;
    if raw.len() != usize::from(size_of(byte_at(field, 0))) {
        return Err(Refusal::Disagree);
    }
    Ok(kind)
}

// The whole number that raw bytes of a type make.
fn raw_of(kind: Kind, raw: &[u8]) -> i64
    requires { length raw.now ≡ size_of (kind_number kind) }
    ensures { result ≡ raw_of (kind_number kind) raw.now }
{
    match kind {
        Kind::S08 => wire::s08(byte_at(raw, 0)),
        Kind::S16 => wire::s16(wire::be16(raw, 0)),
        Kind::S32 => wire::s32(wire::be32(raw, 0)),
        Kind::S64 => wire::s64(wire::number(raw)),
        _ => i64::from(wire::be32(raw, 0)),
    }
}

// A field's raw value, by the field's bytes and its raw bytes.
pub fn raw_value(field: &[u8], raw: &[u8]) -> Result<i64, Refusal>
    ensures { (result ≡ raw_value_of 2 field.now raw.now)
        × (raw_answer result ≡ result_of (pos 0) (value_number 2 field.now raw.now) (raw_of (type_of field.now) raw.now)) }
{
    let kind = check_value(2, field, raw)?;
    Ok(raw_of(kind, raw))
}

// Whether a pattern is that of a finite f32: asked before there is an f32, since `f32::from_bits` takes no NaN.
#[tactic(auto, using(mlg_rules::proofs::Finite::finite_pattern))]
fn is_finite(bits: u32) -> bool
    ensures { result ≡ finite (of_bits binary32 bits) }
{
    bits % 2147483648 / 8388608 != 255
}

// The f32 at a place, which is finite.
fn finite_at(s: &[u8], at: usize) -> Result<f32, Refusal>
    ensures number { number_of result ≡ 30 if not (finite (of_bits binary32 (be_at 4 s.now at))) else 0 }
    ensures value { (x : Float) → result ≡ Ok x → x ≡ of_bits binary32 (be_at 4 s.now at) }
{
    let bits = wire::be32(s, at);
    if !is_finite(bits) {
        return Err(Refusal::NotShown);
    }
    Ok(f32::from_bits(bits))
}

// The scale and the transform in the bytes of a field of a type.
fn scaling_in(kind: Kind, field: &[u8]) -> Result<Scaling, Refusal>
    requires { kind_number kind ≡ type_of field.now }
    ensures number { number_of result ≡ parts_number field.now }
    ensures value { (s : Scaling) → result ≡ Ok s → s ≡ scaling_in field.now }
{
    if !kind.is_shown() {
        return Err(Refusal::NotShown);
    }
    let transform = finite_at(field, 50)?;
    let scale = finite_at(field, 46)?;
    Ok(Scaling { scale, transform })
}

// A field's scale and transform, by its bytes.
pub fn scaling_of(field: &[u8]) -> Result<Scaling, Refusal>
    ensures { (result ≡ scaling_of 2 field.now)
        × (scaling_answer result ≡ result_of zero_scaling (scaling_number 2 field.now) (scaling_in field.now)) }
{
    let kind = check_field(2, field)?;
    scaling_in(kind, field)
}

// The shown value of a raw value by a scale and a transform: transform added, then times scale.
pub fn apply(scaling: Scaling, raw: f32) -> Result<f32, Refusal>
    ensures { (result ≡ apply_of scaling raw) × (shown_answer result ≡ result_of zero_float (scaled_number scaling raw) (scaled scaling raw)) }
{
    let sum = raw + scaling.transform;
    if !sum.is_finite() {
        return Err(Refusal::NotShown);
    }
    let product = sum * scaling.scale;
    if !product.is_finite() {
        return Err(Refusal::NotShown);
    }
    Ok(product)
}

// A number of at most 16 bits as an f32, exactly.
fn as_float(z: i64) -> f32
    requires { mag z < 65536 }
    ensures { result ≡ of_int binary32 z }
{
    z as f32
}

// The raw value of a type that is shown, as an f32.
fn raw_float(kind: Kind, raw: &[u8]) -> Result<f32, Refusal>
    requires { (length raw.now ≡ size_of (kind_number kind)) × (shows (kind_number kind) ≡ true) }
    ensures number { (e : Refusal) → result ≡ Err e → (code e ≡ 30) × (finite (raw_float (kind_number kind) raw.now) ≡ false) }
    ensures value { (x : Float) → result ≡ Ok x → x ≡ raw_float (kind_number kind) raw.now }
{
    match kind {
        Kind::F32 => finite_at(raw, 0),
        _ => Ok(as_float(raw_of(kind, raw))),
    }
}

// A field's shown value, by the field's bytes and its raw bytes.
pub fn shown_value(field: &[u8], raw: &[u8]) -> Result<f32, Refusal>
    ensures { (result ≡ shown_value_of 2 field.now raw.now)
        × (shown_answer result ≡ result_of zero_float (shown_number 2 field.now raw.now) (shown_of field.now raw.now)) }
{
    let kind = check_value(2, field, raw)?;
    let scaling = scaling_in(kind, field)?;
    let x = raw_float(kind, raw)?;
    apply(scaling, x)
}
