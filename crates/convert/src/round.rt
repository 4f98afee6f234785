// The whole number nearest to a quotient.
ghost use Rattle.std.specs.Prelude.{◌≡◌, ◌<◌, ◌^◌, nat_abs};
ghost use Rattle.convert.specs.Round.{rounded, nearest};
ghost use Rattle.convert.specs.Edition.{halves_of};

use crate::edition::goes_up;
use cell::size::size;
use number::signed::with_sign;

// The size n/d rounded to the nearest whole number, a half by the edition's rule.
fn rounded_of(edition: u64, n: u64, d: u64) -> u64
    requires { (n < 2 ^ 61) × (d < 2 ^ 61) × (0 < d) }
    ensures { result ≡ rounded (halves_of edition) n d }
{
    let q = n / d;
    let twice = 2 * (n % d);
    if (d < twice) | ((twice == d) & goes_up(edition, q)) {
        return q + 1;
    }
    q
}

// The whole number nearest to n/d, a half by the edition's rule.
pub fn nearest_of(edition: u64, n: i64, d: i64) -> i64
    requires { (nat_abs n < 2 ^ 61) × (nat_abs d < 2 ^ 61) × (0 < nat_abs d) }
    ensures { result ≡ nearest (halves_of edition) n d }
{
    let m = rounded_of(edition, size(n), size(d));
    if n < 0 {
        return with_sign(0 <= d, m);
    }
    with_sign(d < 0, m)
}
