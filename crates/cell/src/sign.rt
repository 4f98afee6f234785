// Stored numbers and raw numbers where there is no mask: two's complement.
ghost use Rattle.std.specs.Prelude.{◌≡◌, ◌<◌, ◌≤◌, ◌^◌, nat_abs};
ghost use Rattle.cell.specs.Sign.{typed, fits_type, bits_of};

use crate::size::size;

// How many numbers width bytes hold.
pub fn range(width: usize) -> u64
    requires { width ≤ 4 }
    ensures { result ≡ 256 ^ width }
{
    1u64 << (8 * width)
}

// The raw number that a stored number is.
pub fn value_of(signed: bool, width: usize, n: u32) -> i64
    requires { width ≤ 4 }
    ensures { result ≡ typed signed width n }
{
    let x = n as i64;
    if signed {
        let r = range(width);
        if (n as u64) < r / 2 {
            return x;
        }
        return x - (r as i64);
    }
    x
}

// Whether a raw number fits its type.
pub fn fits_type(signed: bool, width: usize, raw: i64) -> bool
    requires { width ≤ 4 }
    ensures { result ≡ fits_type signed width raw }
{
    let r = range(width);
    let m = size(raw);
    if raw < 0 {
        if signed {
            return m <= r / 2;
        }
        return false;
    }
    if signed {
        return m < r / 2;
    }
    m < r
}

// The stored number of a raw number.
pub fn bits_of(width: usize, raw: i64) -> u64
    requires width_bound { width ≤ 4 }
    requires raw_bound { nat_abs raw < 256 ^ width }
    ensures { result ≡ bits_of width raw }
{
    let m = size(raw);
    if raw < 0 {
        let r = range(width);
        return r - m;
    }
    m
}
