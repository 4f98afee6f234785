// Decimal numbers as a run of bytes writes them, with or without an exponent.
#![tactic(auto)]

ghost use Rattle.std.specs.Prelude.{◌≡◌, length, drop};
ghost use Rattle.number.specs.Answer.{in_run};
ghost use Rattle.number.specs.Told.{told_decimal};
ghost use Rattle.number.specs.Decimal.{is_e, mantissa, decimal_of};
ghost use Rattle.decimals.specs.Inner.{exponent_after};

use crate::mantissa::mantissa_of;
use number::decimal::Decimal;
use number::digits::NoForm;
use number::exponent::{Exponent, exponent_of};

mod gather;
mod mantissa;
mod tens;

// `E` or `e`.
fn is_e(b: u8) -> bool
    ensures { result ≡ is_e b }
{
    (b == b'E') | (b == b'e')
}

// Where the first E or e stands, or the end.
fn e_place(s: &[u8]) -> usize
    ensures { result ≡ length (mantissa s.now) }
{
    for i in 0..s.len() {
        if is_e(s[i]) {
            return i;
        }
    }
    s.len()
}

// The exponent behind the E at a place, or none at the end.
fn exponent_from(s: &[u8], e: usize) -> Result<Option<Exponent>, NoForm>
    ensures { result ≡ exponent_after (drop e s.now) }
{
    if s.len() <= e {
        return Ok(None);
    }
    let x = exponent_of(&s[e + 1..])?;
    Ok(Some(x))
}

// The decimal number that a run writes.
pub fn decimal_of(s: &[u8]) -> Result<Decimal, NoForm>
    ensures { told_decimal result ≡ decimal_of s.now }
{
    let e = e_place(s);
    let x = exponent_from(s, e)?;
    mantissa_of(&s[..e], x)
}

// The decimal number that the run between two places writes.
pub fn decimal_in(s: &[u8], from: usize, to: usize) -> Result<Decimal, NoForm>
    ensures { told_decimal result ≡ in_run decimal_of s.now from to }
{
    let run = s.get(from..to).ok_or(NoForm)?;
    decimal_of(run)
}
