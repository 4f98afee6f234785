// Whole numbers of at most ten digits, times and over powers of ten.
ghost use Rattle.std.specs.Prelude.{◌≡◌, ◌≤◌, ◌*◌, ◌^◌};
ghost use Rattle.number.specs.Decimal.{most_whole, lowest, judged_decimal};
ghost use Rattle.number.specs.Told.{told_decimal};
ghost use Rattle.decimals.specs.Inner.{capped};

use number::decimal::{Decimal, lowered};
use number::digits::NoForm;

// The greatest number of nine digits: one digit more makes ten.
pub const MOST_NINE: u64 = 999999999;
// What stands for every number of more than ten digits.
const TOO_WIDE: u64 = 10000000000;

// m times 10^p, or 10^10 where it has more than ten digits.
fn raised(m: u64, p: usize) -> u64
    requires { m ≤ most_whole }
    ensures { result ≡ capped (m * 10 ^ p) }
{
    let mut n = m;
    for _ in 0..p {
        if MOST_NINE < n {
            return TOO_WIDE;
        }
        n *= 10;
    }
    n
}

// The number m times 10^p over 10^t, where it has ten digits at most and six after the point.
pub fn settled(negative: bool, m: u64, p: usize, t: usize) -> Result<Decimal, NoForm>
    requires { m ≤ most_whole }
    ensures { told_decimal result ≡ judged_decimal (lowest negative (m * 10 ^ p) t) }
{
    if t <= p {
        return lowered(negative, raised(m, p - t), 0);
    }
    lowered(negative, m, t - p)
}
