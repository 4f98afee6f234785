// Decimals compared exactly, as limits are.
ghost use Rattle.std.specs.Prelude.{◌≡◌};
ghost use Rattle.number.specs.Told.{scaled};
ghost use Rattle.convert.specs.Limit.{at_most};

use crate::whole::{is_formed, times_ten};
use number::decimal::Decimal;

// Whether a decimal is at most another.
pub fn at_most(a: Decimal, b: Decimal) -> bool
    ensures { result ≡ at_most (scaled a) (scaled b) }
{
    if is_formed(a) & is_formed(b) {
        return times_ten(a, b.tens) <= times_ten(b, a.tens);
    }
    false
}
