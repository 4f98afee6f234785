// A physical write: the raw number that an asked text stores, with limits on the asked value and on what is stored.
#![tactic(auto)]

ghost use Rattle.std.specs.Prelude.{◌≡◌};
ghost use Rattle.number.specs.Told.{scaled};
ghost use Rattle.cell.specs.Kind.{shape_of};
ghost use Rattle.convert.specs.Edition.{halves_of};
ghost use Rattle.convert.specs.Asked.{means_within, asked_raw};
ghost use Rattle.convert.specs.Told.{told_raw};

use convert::asked::{RawRefusal, rounded_raw};
use convert::fraction::NUMBER;
use convert::method::Coefficients;
use fraction::fraction::fraction_of;
use number::decimal::Decimal;
use places::limit::{at_most_fraction, fraction_at_most};

// Whether a raw number means a number within the limits, ends included; one that means nothing does not.
pub fn means_within(lower: Decimal, upper: Decimal, k: Coefficients, raw: i64) -> bool
    ensures { result ≡ means_within (scaled lower) (scaled upper) k raw }
{
    let p = fraction_of(k, raw);
    if p.state == NUMBER {
        return at_most_fraction(lower, p.first, p.second)
            & fraction_at_most(p.first, p.second, upper);
    }
    false
}

// The raw number that an asked text stores by an edition: form, limits, coefficients, type and mask, and then the limits on what it means.
pub fn asked_raw(
    edition: u64,
    asked: &[u8],
    lower: Decimal,
    upper: Decimal,
    k: Coefficients,
    kind: u64,
    mask: u64,
) -> Result<i64, RawRefusal>
    ensures { told_raw result ≡ asked_raw (halves_of edition) (scaled lower) (scaled upper) k (shape_of kind) mask asked.now }
{
    let raw = rounded_raw(edition, asked, lower, upper, k, kind, mask)?;
    if means_within(lower, upper, k, raw) {
        return Ok(raw);
    }
    Err(RawRefusal::OutsideLimits)
}
