// The exponent of a decimal number: what follows its E.
ghost use Rattle.std.specs.Prelude.{◌≡◌};
ghost use Rattle.number.specs.Told.{decimal_digit, exponent_in, BelowHundred};

use crate::decimal::{is_minus, sign_len};
use crate::digits::{NoForm, digit_of};

// An exponent: it moves the point down or up by so many digits.
#[derive(Clone, Copy)]
pub struct Exponent {
    pub down: bool,
    pub by: u8,
}

// What a byte is worth as a decimal digit.
fn decimal_digit(b: u8) -> Result<u8, NoForm>
    ensures { result ≡ decimal_digit b }
{
    let d = digit_of(b);
    if d < 10 { Ok(d) } else { Err(NoForm) }
}

// What follows an E: a sign or none, and one or two digits.
pub fn exponent_of(s: &[u8]) -> Result<Exponent, NoForm>
    ensures { (result ≡ exponent_in s.now) × BelowHundred result }
{
    let down = is_minus(s);
    let by = match &s[sign_len(s)..] {
        [] => return Err(NoForm),
        [a] => decimal_digit(*a)?,
        [a, b] => decimal_digit(*a)? * 10 + decimal_digit(*b)?,
        _ => return Err(NoForm),
    };
    Ok(Exponent { down, by })
}
