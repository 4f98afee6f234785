// Coefficients of a conversion: four decimals made whole.
ghost use Rattle.std.specs.Prelude.{◌≡◌, true, ◌≤◌};
ghost use Rattle.number.specs.Told.{scaled};
ghost use Rattle.convert.specs.Whole.{Small, all_small};
ghost use Rattle.convert.specs.Limit.{formed};
ghost use Rattle.convert.specs.Method.{times_ten, same_products, sound_method, judged_method, rat_func, linear_of, identical_of};
ghost use Rattle.convert.specs.Told.{no_conversion_number, told_method};

use crate::whole::{is_formed, times_ten};
use cell::size::size;
use number::decimal::Decimal;

// "10: b·f = c·e, or one of the four above 10^9"
#[derive(Clone, Copy)]
pub struct NoConversion;

impl NoConversion {
    // Its number in the list of refusals.
    pub fn number(self) -> u8
        ensures { result ≡ no_conversion_number self }
    {
        10
    }
}

// "Each of the four is at most 10^9 in size."
const MOST_COEFFICIENT: u64 = 1000000000;

// b, c, e and f of RAT_FUNC, made whole.
#[derive(Clone, Copy)]
pub struct Coefficients {
    pub b: i64,
    pub c: i64,
    pub e: i64,
    pub f: i64,
}

// Whether each of the four is at most 10^9 in size.
pub fn all_small(k: Coefficients) -> bool
    ensures { result ≡ all_small k }
{
    (size(k.b) <= MOST_COEFFICIENT)
        & (size(k.c) <= MOST_COEFFICIENT)
        & (size(k.e) <= MOST_COEFFICIENT)
        & (size(k.f) <= MOST_COEFFICIENT)
}

// Whether b·f = c·e.
fn same_products(k: Coefficients) -> bool
    requires { Small k }
    ensures { result ≡ same_products k }
{
    k.b * k.f == k.c * k.e
}

// Whether four whole numbers are a conversion.
pub fn is_sound(k: Coefficients) -> bool
    ensures { result ≡ sound_method k }
{
    if all_small(k) {
        return !same_products(k);
    }
    false
}

// Four whole numbers where they are a conversion.
fn judge(k: Coefficients) -> Result<Coefficients, NoConversion>
    ensures { told_method result ≡ judged_method k }
{
    if is_sound(k) {
        return Ok(k);
    }
    Err(NoConversion)
}

// A decimal times 10^t, which makes it whole.
fn made_whole(d: Decimal, t: u32) -> i64
    requires d_value { formed (scaled d) ≡ true }
    requires tens_le_t { (d.tens ≤ t) × (t ≤ 6) }
    ensures { result ≡ times_ten t (scaled d) }
{
    times_ten(d, t - d.tens)
}

// RAT_FUNC with a and d of 0: the four others made whole at the smallest common power of ten.
pub fn rat_func(
    b: Decimal,
    c: Decimal,
    e: Decimal,
    f: Decimal,
) -> Result<Coefficients, NoConversion>
    ensures { told_method result ≡ rat_func (scaled b) (scaled c) (scaled e) (scaled f) }
{
    if is_formed(b) & is_formed(c) & is_formed(e) & is_formed(f) {
        let t = b.tens.max(c.tens).max(e.tens.max(f.tens));
        return judge(Coefficients {
            b: made_whole(b, t),
            c: made_whole(c, t),
            e: made_whole(e, t),
            f: made_whole(f, t),
        });
    }
    Err(NoConversion)
}

// LINEAR, PHYS = a·INT + b.
pub fn linear(a: Decimal, b: Decimal) -> Result<Coefficients, NoConversion>
    ensures { told_method result ≡ linear_of (scaled a) (scaled b) }
{
    if is_formed(a) & is_formed(b) {
        let t = a.tens.max(b.tens);
        return judge(Coefficients {
            b: 10u64.pow(t) as i64,
            c: 0 - made_whole(b, t),
            e: 0,
            f: made_whole(a, t),
        });
    }
    Err(NoConversion)
}

// IDENTICAL and NO_COMPU_METHOD.
pub fn identical() -> Coefficients
    ensures { result ≡ identical_of }
{
    Coefficients {
        b: 1,
        c: 0,
        e: 0,
        f: 1,
    }
}
