// Decimal numbers: what they are read into, their sign, the smallest power of ten, and how many digits they may have.
ghost use Rattle.std.specs.Prelude.{◌≡◌, ◌≤◌, length};
ghost use Rattle.number.specs.Told.{tenths, told_decimal};
ghost use Rattle.number.specs.Decimal.{signs, minus, lowest, judged_decimal};

use crate::digits::NoForm;

// The greatest whole number of ten digits, and the most digits after the point.
pub const MOST_WHOLE: u64 = 9999999999;

pub const MOST_AFTER: usize = 6;

// A decimal number: whole over 10^tens, below zero where negative.
#[derive(Clone, Copy)]
pub struct Decimal {
    pub negative: bool,
    pub whole: u64,
    pub tens: u32,
}

// How many signs stand first: 0 or 1.
pub fn sign_len(s: &[u8]) -> usize
    ensures { (result ≡ signs s.now) × (result ≤ length s.now) }
{
    match s {
        [b'+' | b'-', ..] => 1,
        _ => 0,
    }
}

// Whether a minus stands first.
pub fn is_minus(s: &[u8]) -> bool
    ensures { result ≡ minus s.now }
{
    matches!(s, [b'-', ..])
}

// The number whole over 10^tens, where it has ten digits at most and six after the point.
fn judged(negative: bool, whole: u64, tens: usize) -> Result<Decimal, NoForm>
    ensures { told_decimal result ≡ judged_decimal (tenths negative whole tens) }
{
    if MOST_WHOLE < whole {
        return Err(NoForm);
    }
    if MOST_AFTER < tens {
        return Err(NoForm);
    }
    Ok(Decimal {
        negative,
        whole,
        tens: tens as u32,
    })
}

// The number n over 10^t without needless zeros: over the smallest power of ten that does.
pub fn lowered(negative: bool, n: u64, t: usize) -> Result<Decimal, NoForm>
    ensures { told_decimal result ≡ judged_decimal (lowest negative n t) }
{
    let mut m = n;
    for k in 0..t {
        if m % 10 != 0 {
            return judged(negative, m, t - k);
        }
        m /= 10;
    }
    judged(negative & (m != 0), m, 0)
}
