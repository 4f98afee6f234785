// Whether a run has one of the forms of a number.
ghost use Rattle.std.specs.Prelude.{◌≡◌, ◌≤◌, ◌↔◌, length, IsTrue, All};
ghost use Rattle.number.specs.Form.{formed, has_form};

use crate::whole::whole_of;
use decimals::decimal_of;

// The greatest number that eight hex digits write.
const HEX_GREATEST: u64 = 0xFFFF_FFFF;

// Whether a run is decimal digits, one or more.
fn is_digits(s: &[u8]) -> bool
    ensures { IsTrue result ↔ (1 ≤ length s.now) × All (λ b. (48 ≤ b) × (b ≤ 57)) s.now }
{
    !s.is_empty() && s.iter().all(|b| b.is_ascii_digit())
}

// Whether a run has a form.
pub fn is_formed(s: &[u8]) -> bool
    ensures { result ≡ formed s.now }
{
    decimal_of(s).is_ok() || whole_of(s, HEX_GREATEST).is_ok() || is_digits(s)
}

// Whether the run between two places has a form.
pub fn has_form(s: &[u8], from: usize, to: usize) -> bool
    ensures { result ≡ has_form s.now from to }
{
    match s.get(from..to) {
        Some(run) => is_formed(run),
        None => false,
    }
}
