// A fraction in six places.
ghost use Rattle.std.specs.Prelude.{◌≡◌, ◌<◌, ◌^◌};
ghost use Rattle.places.specs.Six.{millionths_of, six_of, six_places};

use crate::divide::divided;

// The first divisor that no i64 is.
const PAST_DIVISOR: u64 = 9223372036854775808;

// The most millionths beside a whole part.
const LAST: u64 = 999999;

// A whole part, and the millionths beside it.
#[derive(Clone, Copy)]
pub struct Six {
    pub whole: u64,
    pub millionths: u64,
}

// The fraction n/d in six places, halves up: the rest of n/d in millionths, and what is left over decides the last.
fn places_of(n: u64, d: u64) -> Six
    requires { (0 < d) × (d < 2 ^ 63) }
    ensures { result ≡ six_of (millionths_of n d) }
{
    let whole = n / d;
    let q = divided(6, n % d, d);
    let m = q.whole;
    if 2 * q.rest < d {
        return Six {
            whole,
            millionths: m,
        };
    }
    if m == LAST {
        return Six {
            whole: whole + 1,
            millionths: 0,
        };
    }
    Six {
        whole,
        millionths: m + 1,
    }
}

// The fraction n/d in six places; zeros where d is 0, or above every i64.
pub fn six_places(n: u64, d: u64) -> Six
    ensures { result ≡ six_places n d }
{
    if (0 < d) & (d < PAST_DIVISOR) {
        return places_of(n, d);
    }
    Six {
        whole: 0,
        millionths: 0,
    }
}
