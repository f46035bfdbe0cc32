// Values of an MLG's fields.
ghost use Rattle.std.specs.Prelude.{◌≡◌};
ghost use Rattle.mlg_rules.specs.Raw.{raw_value_of};
ghost use Rattle.mlg_rules.specs.Shown.{shown_value_of};
ghost use Rattle.honeygimlet.specs.Answers.{raw_out, shown_out};

use crate::{Raw, Shown};

#[unsafe(no_mangle)]
pub extern "C" fn hg_mlg_raw_value(field: &[u8], raw: &[u8]) -> Raw
    ensures { result ≡ raw_out (raw_value_of 2 field.now raw.now) }
{
    match mlg_values::raw_value(field, raw) {
        Ok(value) => Raw { value, number: 0 },
        Err(e) => Raw {
            value: 0,
            number: e.number(),
        },
    }
}

#[unsafe(no_mangle)]
pub extern "C" fn hg_mlg_shown_value(field: &[u8], raw: &[u8]) -> Shown
    ensures { result ≡ shown_out (shown_value_of 2 field.now raw.now) }
{
    match mlg_values::shown_value(field, raw) {
        Ok(value) => Shown { value, number: 0 },
        Err(e) => Shown {
            value: 0.0,
            number: e.number(),
        },
    }
}
