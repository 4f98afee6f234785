// A physical write: from the asked text to the rounded raw number. The crate `asked` has the test of what it means.
ghost use Rattle.std.specs.Prelude.{◌≡◌, ◌≤◌, nat_abs};
ghost use Rattle.number.specs.Told.{scaled};
ghost use Rattle.cell.specs.Kind.{shape_of};
ghost use Rattle.convert.specs.Whole.{Small};
ghost use Rattle.convert.specs.Round.{raw_for};
ghost use Rattle.convert.specs.Edition.{halves_of};
ghost use Rattle.convert.specs.Asked.{nearest_raw, rounded_raw};
ghost use Rattle.convert.specs.Told.{raw_refusal_number, told_raw};

use crate::limit::at_most;
use crate::method::{Coefficients, all_small};
use crate::round::nearest_of;
use cell::raw::fits_raw;
use decimals::decimal_of;
use number::decimal::Decimal;
use number::signed::with_sign;

// "15: asked value outside its form; 16: outside limits; 17: no raw value exists; 18: doesn't fit type or mask"
#[derive(Clone, Copy)]
pub enum RawRefusal {
    NoForm,
    OutsideLimits,
    NoRaw,
    NoFit,
}

impl RawRefusal {
    // Its number in the list of refusals.
    pub fn number(self) -> u8
        ensures { result ≡ raw_refusal_number self }
    {
        match self {
            RawRefusal::NoForm => 15,
            RawRefusal::OutsideLimits => 16,
            RawRefusal::NoRaw => 17,
            RawRefusal::NoFit => 18,
        }
    }
}

// "the asked value has a whole part over ten-power of size at most 10^9"
const MOST_ASKED: u64 = 1000000000;

// The raw number nearest to what p/q asks, a half by the edition's rule.
fn raw_for(edition: u64, k: Coefficients, p: i64, q: i64) -> Result<i64, RawRefusal>
    requires small { Small k }
    requires p_bound { (nat_abs p ≤ 1000000000) × (nat_abs q ≤ 1000000) }
    ensures { told_raw result ≡ raw_for (halves_of edition) k p q }
{
    let n = k.b * p + k.c * q;
    let d = k.e * p + k.f * q;
    if d == 0 {
        return Err(RawRefusal::NoRaw);
    }
    Ok(nearest_of(edition, n, d))
}

// The raw number nearest to what a decimal asks.
fn nearest_raw(edition: u64, k: Coefficients, d: Decimal) -> Result<i64, RawRefusal>
    requires { (d.whole ≤ 1000000000) × (d.tens ≤ 6) }
    ensures { told_raw result ≡ nearest_raw (halves_of edition) k (scaled d) }
{
    if all_small(k) {
        return raw_for(
            edition,
            k,
            with_sign(d.negative, d.whole),
            10u64.pow(d.tens) as i64,
        );
    }
    Err(RawRefusal::NoRaw)
}

// The rounded number that an asked text has by an edition, judged by its form, the limits, the coefficients, and type and mask.
pub fn rounded_raw(
    edition: u64,
    asked: &[u8],
    lower: Decimal,
    upper: Decimal,
    k: Coefficients,
    kind: u64,
    mask: u64,
) -> Result<i64, RawRefusal>
    ensures { told_raw result ≡ rounded_raw (halves_of edition) (scaled lower) (scaled upper) k (shape_of kind) mask asked.now }
{
    let Ok(d) = decimal_of(asked) else {
        return Err(RawRefusal::NoForm);
    };
    if MOST_ASKED < d.whole {
        return Err(RawRefusal::NoForm);
    }
    if !(at_most(lower, d) & at_most(d, upper)) {
        return Err(RawRefusal::OutsideLimits);
    }
    let raw = nearest_raw(edition, k, d)?;
    if fits_raw(kind, mask, raw) {
        return Ok(raw);
    }
    Err(RawRefusal::NoFit)
}
