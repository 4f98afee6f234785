// The coefficients of the methods in the lent tables.
ghost use Rattle.std.specs.Prelude.{◌≡◌, ◌<◌, ◌^◌, min};
ghost use Rattle.number.specs.Signed.{signed_of};
ghost use Rattle.tables.specs.Form.{tables_in, past_coefficient, coefficient, coefficients};

use crate::form::{METHOD, slot_of};
use convert::method::Coefficients;
use number::signed::with_sign;

// One past "10^9".
const PAST_COEFFICIENT: u64 = 1000000001;

// A size, at most one past every coefficient's.
fn coefficient_size(n: u64) -> u64
    ensures { result ≡ min n past_coefficient }
{
    n.min(PAST_COEFFICIENT)
}

// The whole number in two cells of method m.
fn coefficient_of(t: &[u64], m: u16, k: u8) -> i64
    ensures { result ≡ coefficient (tables_in t.now) m k }
{
    let at = k as u16;
    let sign = slot_of(t, METHOD, m, at);
    let size = slot_of(t, METHOD, m, at + 1);
    with_sign(sign == 1, coefficient_size(size))
}

// The four coefficients of method m.
pub fn coefficients_of(t: &[u64], m: u16) -> Coefficients
    ensures { result ≡ coefficients (tables_in t.now) m }
{
    Coefficients {
        b: coefficient_of(t, m, 1),
        c: coefficient_of(t, m, 3),
        e: coefficient_of(t, m, 5),
        f: coefficient_of(t, m, 7),
    }
}
