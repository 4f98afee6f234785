// Division after a power of ten, a digit at a time, by sums that stay below twice the divisor.
ghost use Rattle.std.specs.Prelude.{◌≡◌, ◌+◌, ◌*◌, ◌/◌, ◌<◌, ◌≤◌, ◌^◌};
ghost use Rattle.places.specs.Divide.{Divides};

// A number as so many divisors and a rest.
#[derive(Clone, Copy)]
pub struct Division {
    pub whole: u64,
    pub rest: u64,
}

// a + b as so many d and a rest.
fn added(a: u64, b: u64, d: u64) -> Division
    requires { (a < d) × (b < d) × (d < 2 ^ 63) }
    ensures { (result.rest + result.whole * d ≡ a + b) × (result.rest < d) × (result.whole ≤ 1) }
{
    let s = a + b;
    if s < d {
        return Division { whole: 0, rest: s };
    }
    Division {
        whole: 1,
        rest: s - d,
    }
}

// 10 · r as so many d and a rest: the next digit of r / d.
fn digit(r: u64, d: u64) -> Division
    requires { (r < d) × (d < 2 ^ 63) }
    ensures { (result.rest + result.whole * d ≡ 10 * r) × (result.rest < d) × (result.whole ≤ 9) }
{
    let two = added(r, r, d);
    let t2 = two.rest;
    let four = added(t2, t2, d);
    let t4 = four.rest;
    let eight = added(t4, t4, d);
    let ten = added(eight.rest, t2, d);
    let q = 5 * two.whole + 2 * four.whole + eight.whole + ten.whole;
    Division {
        whole: q,
        rest: ten.rest,
    }
}

// n · 10^t as so many d and a rest.
pub fn divided(t: u32, n: u64, d: u64) -> Division
    requires { (t ≤ 6) × (0 < d) × (d < 2 ^ 63) × (n / d < 10000000000) }
    ensures { Divides n t d result.whole result.rest }
{
    let mut whole = n / d;
    let mut rest = n % d;
    for _ in 0..t {
        let s = digit(rest, d);
        whole = whole * 10 + s.whole;
        rest = s.rest;
    }
    Division { whole, rest }
}
