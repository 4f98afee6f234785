// Whole numbers without a sign: decimal, or `0x` with 1 to 8 hex digits.
ghost use Rattle.std.specs.Prelude.{◌≡◌, ◌≤◌, ◌<◌};
ghost use Rattle.number.specs.Answer.{in_run};
ghost use Rattle.number.specs.Told.{told_whole};
ghost use Rattle.number.specs.Whole.{whole_from, whole_of};

use number::digits::{NoForm, digit_of};

// The most hex digits.
const MOST_HEX: usize = 8;

// The whole number that digits of a base write, at most most. Most is divided once, so that no digit is read with a division.
fn whole_from(s: &[u8], base: u8, most: u64) -> Result<u64, NoForm>
    requires { (0 < base) × (base ≤ 16) }
    ensures { told_whole result ≡ whole_from base most s.now }
{
    if s.is_empty() {
        return Err(NoForm);
    }
    let radix = base as u64;
    let (tens, ones) = (most / radix, most % radix);
    let mut n: u64 = 0;
    for &b in s {
        let d = digit_of(b);
        if base <= d {
            return Err(NoForm);
        }
        if (tens < n) | ((tens == n) & (ones < d as u64)) {
            return Err(NoForm);
        }
        n = n * radix + d as u64;
    }
    Ok(n)
}

// The whole number that a run writes, at most most.
pub fn whole_of(s: &[u8], most: u64) -> Result<u64, NoForm>
    ensures { told_whole result ≡ whole_of most s.now }
{
    match s {
        [b'0', b'x', digits @ ..] => {
            if MOST_HEX < digits.len() {
                return Err(NoForm);
            }
            whole_from(digits, 16, most)
        }
        _ => whole_from(s, 10, most),
    }
}

// The whole number that the run between two places writes, at most most.
pub fn whole_in(s: &[u8], from: usize, to: usize, most: u64) -> Result<u64, NoForm>
    ensures { told_whole result ≡ in_run (whole_of most) s.now from to }
{
    let run = s.get(from..to).ok_or(NoForm)?;
    whole_of(run, most)
}
