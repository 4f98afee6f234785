// A decimal and a fraction, compared exactly: a limit, and "the value that the stored number means, as its exact fraction".
ghost use Rattle.std.specs.Prelude.{◌≡◌, ◌*◌, ◌<◌, ◌≤◌, ◌^◌, leb, pos, ◌*ℤ◌};
ghost use Rattle.std.specs.Int.Signed.{le_z};
ghost use Rattle.number.specs.Signed.{signed_of};
ghost use Rattle.number.specs.Told.{scaled};
ghost use Rattle.convert.specs.Limit.{at_most_fraction, fraction_at_most};

use crate::divide::divided;
use cell::size::size;
use convert::whole::is_formed;
use number::decimal::Decimal;

// The first whole number past every decimal.
const PAST_WHOLE: u64 = 10000000000;

// The two sides of a decimal and a fraction: whether it is at most the fraction, and whether the fraction is at most it.
#[derive(Clone, Copy)]
struct Sides {
    below: bool,
    above: bool,
}

// The two sides of w over 10^t and n/d.
fn sizes(w: u64, t: u32, n: u64, d: u64) -> Sides
    requires { (w ≤ 9999999999) × (t ≤ 6) × (0 < d) × (d < 2 ^ 63) }
    ensures { (result.below ≡ leb (w * d) (n * 10 ^ t)) × (result.above ≡ leb (n * 10 ^ t) (w * d)) }
{
    if PAST_WHOLE <= n / d {
        return Sides {
            below: true,
            above: false,
        };
    }
    let q = divided(t, n, d);
    Sides {
        below: w <= q.whole,
        above: (q.whole < w) | ((q.whole == w) & (q.rest == 0)),
    }
}

// The same with the signs of the decimal and of the numerator.
fn signed_sides(a: Decimal, n: i64, d: u64) -> Sides
    requires { (a.whole ≤ 9999999999) × (a.tens ≤ 6) × (0 < d) × (d < 2 ^ 63) }
    ensures below_value { result.below ≡ le_z (signed_of a.negative a.whole *ℤ pos d) (n *ℤ pos (10 ^ a.tens)) }
    ensures above_value { result.above ≡ le_z (n *ℤ pos (10 ^ a.tens)) (signed_of a.negative a.whole *ℤ pos d) }
{
    let m = size(n);
    let s = sizes(a.whole, a.tens, m, d);
    if n < 0 {
        if a.negative {
            return Sides {
                below: s.above,
                above: s.below,
            };
        }
        return Sides {
            below: false,
            above: true,
        };
    }
    if a.negative {
        return Sides {
            below: true,
            above: (a.whole == 0) & (m == 0),
        };
    }
    s
}

// The two sides of a decimal and a fraction: neither by a divisor that is not above zero, nor of a decimal that no text can write.
fn sides_of(a: Decimal, n: i64, d: i64) -> Sides
    ensures { (result.below ≡ at_most_fraction (scaled a) n d) × (result.above ≡ fraction_at_most n d (scaled a)) }
{
    if (0 < d) & is_formed(a) {
        return signed_sides(a, n, size(d));
    }
    Sides {
        below: false,
        above: false,
    }
}

// Whether a decimal is at most a fraction.
pub fn at_most_fraction(a: Decimal, n: i64, d: i64) -> bool
    ensures { result ≡ at_most_fraction (scaled a) n d }
{
    let s = sides_of(a, n, d);
    s.below
}

// Whether a fraction is at most a decimal.
pub fn fraction_at_most(n: i64, d: i64, a: Decimal) -> bool
    ensures { result ≡ fraction_at_most n d (scaled a) }
{
    let s = sides_of(a, n, d);
    s.above
}
