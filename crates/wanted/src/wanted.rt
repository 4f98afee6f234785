// The raw number that a write wants: 15, 16, 17, 18, 16.
ghost use Rattle.std.specs.Prelude.{◌≡◌};
ghost use Rattle.cell.specs.Kind.{shape_of};
ghost use Rattle.convert.specs.Asked.{rounded_raw};
ghost use Rattle.convert.specs.Edition.{halves_of};
ghost use Rattle.convert.specs.Told.{told_raw};
ghost use Rattle.tables.specs.Form.{tables_in, lower_cell, upper_cell, edition, kind, mask, limit};
ghost use Rattle.look.specs.Calls.{raw_number, physical_text, asks_by, wanted_raw};

use asked::asked_raw;
use cell::raw::fits_raw;
use convert::asked::{RawRefusal, rounded_raw};
use look::method::{asks_by, is_tab_verb};
use tables::group::{kind_of, limit_of, mask_of};
use tables::head::edition_of;

// Where a group holds its lower and its upper limit.
const LOWER: u16 = 11;

const UPPER: u16 = 14;

// The raw number of a raw write: type and mask are tested, no limits.
pub fn raw_wanted(t: &[u64], g: u16, value: i64) -> Result<i64, RawRefusal>
    ensures { told_raw result ≡ wanted_raw (tables_in t.now) g (raw_number value) }
{
    if fits_raw(kind_of(t, g), mask_of(t, g), value) {
        return Ok(value);
    }
    Err(RawRefusal::NoFit)
}

// The raw number nearest to a physical value, a half by the tables' edition: by form, limits, coefficients, type and mask, and limits on what it means.
pub fn raw_asked(t: &[u64], g: u16, asked: &[u8]) -> Result<i64, RawRefusal>
    ensures { told_raw result ≡ wanted_raw (tables_in t.now) g (physical_text asked.now) }
{
    if is_tab_verb(t, g) {
        return Err(RawRefusal::NoForm);
    }
    let lower = limit_of(t, g, LOWER);
    let upper = limit_of(t, g, UPPER);
    let k = asks_by(t, g);
    asked_raw(
        edition_of(t),
        asked,
        lower,
        upper,
        k,
        kind_of(t, g),
        mask_of(t, g),
    )
}

// The same without the limits on what it means: after a refusal 16 the number that would be stored, or 16 again where the asked value is outside.
pub fn raw_rounded(t: &[u64], g: u16, asked: &[u8]) -> Result<i64, RawRefusal>
    ensures { told_raw result ≡ rounded_raw (halves_of (edition (tables_in t.now))) (limit (tables_in t.now) g lower_cell) (limit (tables_in t.now) g upper_cell)
        (asks_by (tables_in t.now) g) (shape_of (kind (tables_in t.now) g)) (mask (tables_in t.now) g) asked.now }
{
    let lower = limit_of(t, g, LOWER);
    let upper = limit_of(t, g, UPPER);
    let k = asks_by(t, g);
    rounded_raw(
        edition_of(t),
        asked,
        lower,
        upper,
        k,
        kind_of(t, g),
        mask_of(t, g),
    )
}
