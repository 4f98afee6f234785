// What the conversions rest on: decimals times a power of ten, and the test of their form.
ghost use Rattle.std.specs.Prelude.{◌≡◌, ◌≤◌, ◌*◌, ◌^◌};
ghost use Rattle.number.specs.Told.{scaled};
ghost use Rattle.number.specs.Signed.{signed_of};
ghost use Rattle.convert.specs.Limit.{formed};

use number::decimal::{Decimal, MOST_AFTER, MOST_WHOLE};
use number::signed::with_sign;

// Whether a decimal has the form that a text can write.
pub fn is_formed(d: Decimal) -> bool
    ensures { result ≡ formed (scaled d) }
{
    (d.whole <= MOST_WHOLE) & (d.tens as usize <= MOST_AFTER)
}

// A decimal's whole number times a power of ten.
pub fn times_ten(d: Decimal, tens: u32) -> i64
    requires { (d.whole ≤ 9999999999) × (tens ≤ 6) }
    ensures { result ≡ signed_of d.negative (d.whole * 10 ^ tens) }
{
    with_sign(d.negative, d.whole * 10u64.pow(tens))
}
