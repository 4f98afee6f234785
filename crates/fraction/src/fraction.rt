// What a raw number means by its coefficients, and what is shown of it.
ghost use Rattle.std.specs.Prelude.{◌≡◌, ◌<◌, ◌≤◌, ◌^◌, nat_abs};
ghost use Rattle.convert.specs.Whole.{Small};
ghost use Rattle.convert.specs.Fraction.{fraction, fraction_of};
ghost use Rattle.convert.specs.Shown.{quotient, shown};
ghost use Rattle.convert.specs.Told.{held, meant, told_shown};

use cell::size::size;
use convert::fraction::{NONE, NUMBER, Physical, Shown, TEXT};
use convert::method::{Coefficients, all_small};

// No element holds a raw number of this size.
const RAW_END: u64 = 4294967296;
// Whole numbers up to 2^53 in size are binary64 numbers.
const MOST_EXACT: u64 = 9007199254740992;

// The fraction of a raw number: both signs turned where the divisor is negative, not cancelled; none where it is 0.
fn exact(k: Coefficients, raw: i64) -> Physical
    requires small { Small k }
    requires raw_bound { nat_abs raw < 2 ^ 32 }
    ensures { result ≡ held (fraction k raw) }
{
    let n = k.f * raw - k.c;
    let d = k.b - k.e * raw;
    if d == 0 {
        return Physical {
            state: NONE,
            first: 0,
            second: 0,
        };
    }
    if d < 0 {
        return Physical {
            state: NUMBER,
            first: 0 - n,
            second: 0 - d,
        };
    }
    Physical {
        state: NUMBER,
        first: n,
        second: d,
    }
}

// What a raw number means by its coefficients. Coefficients above 10^9 and numbers that no element holds mean nothing.
pub fn fraction_of(k: Coefficients, raw: i64) -> Physical
    ensures { result ≡ held (fraction_of k raw) }
{
    if all_small(k) & (size(raw) < RAW_END) {
        return exact(k, raw);
    }
    Physical {
        state: NONE,
        first: 0,
        second: 0,
    }
}

// The shown number: one division of the two whole numbers, each cast without loss.
fn quotient_of(n: i64, d: i64) -> f64
    requires { (nat_abs n ≤ 2 ^ 53) × (nat_abs d ≤ 2 ^ 53) }
    ensures { result ≡ quotient n d }
{
    (n as f64) / (d as f64)
}

// The shown value: the number is given only where both whole numbers are at most 2^53 in size.
pub fn shown_of(p: Physical) -> Shown
    ensures { told_shown result ≡ shown (meant p) }
{
    let first = p.first;
    let second = p.second;
    let state = p.state;
    match state {
        NUMBER => {
            if (size(first) <= MOST_EXACT) & (size(second) <= MOST_EXACT) {
                return Shown::Real(quotient_of(first, second));
            }
            Shown::Nothing
        }
        TEXT => Shown::Words(size(first), size(second)),
        _ => Shown::Nothing,
    }
}
