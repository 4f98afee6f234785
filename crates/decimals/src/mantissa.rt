// What stands before an exponent: a sign, digits, a point among them.
ghost use Rattle.std.specs.Prelude.{◌≡◌, ◌≤◌, ◌<◌, ◌*◌, ◌^◌};
ghost use Rattle.number.specs.Decimal.{most_whole, signed_by};
ghost use Rattle.number.specs.Told.{told_decimal};
ghost use Rattle.decimals.specs.Inner.{made_by, how_of};

use crate::gather::{Part, gather};
use crate::tens::settled;
use number::decimal::{Decimal, MOST_AFTER, is_minus, sign_len};
use number::digits::NoForm;
use number::exponent::Exponent;

// The most digits in all of a number without an exponent.
const MOST_DIGITS: usize = 10;

// The number that digits make, i of them before the point and f after it, the point moved by an exponent.
fn made_of(
    negative: bool,
    p: Part,
    i: usize,
    f: usize,
    x: Option<Exponent>,
) -> Result<Decimal, NoForm>
    requires { (p.m ≤ most_whole) × (p.z < 9223372036854775808) × (i < 9223372036854775808) × (f < 9223372036854775808) }
    ensures { told_decimal result ≡ made_by x negative (p.m * 10 ^ p.z) i f }
{
    match x {
        None => {
            if MOST_DIGITS < i + f {
                return Err(NoForm);
            }
            if MOST_AFTER < f {
                return Err(NoForm);
            }
            settled(negative, p.m, p.z, f)
        }
        Some(exponent) => {
            let by = exponent.by as usize;
            if exponent.down {
                return settled(negative, p.m, p.z, f + by);
            }
            settled(negative, p.m, p.z + by, f)
        }
    }
}

// The decimal number that a run without its exponent writes, the point moved by the exponent.
pub fn mantissa_of(s: &[u8], x: Option<Exponent>) -> Result<Decimal, NoForm>
    ensures { told_decimal result ≡ signed_by (how_of x) s.now }
{
    let negative = is_minus(s);
    let a = sign_len(s);
    let first = gather(s, a, Part { m: 0, z: 0 })?;
    let end = first.end;
    if end <= a {
        return Err(NoForm);
    }
    if s.len() <= end {
        return made_of(negative, first.part, end - a, 0, x);
    }
    if s[end] != b'.' {
        return Err(NoForm);
    }
    let second = gather(s, end + 1, first.part)?;
    if second.end < s.len() {
        return Err(NoForm);
    }
    let f = second.end - (end + 1);
    if f == 0 {
        return Err(NoForm);
    }
    made_of(negative, second.part, end - a, f, x)
}
