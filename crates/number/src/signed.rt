// Whole numbers with a sign.
ghost use Rattle.std.specs.Prelude.{◌≡◌, ◌≤◌};
ghost use Rattle.number.specs.Signed.{signed_of, most_signed};

// The greatest size that an i64 has, with a minus or without.
pub fn most_signed(negative: bool) -> u64
    ensures { result ≡ most_signed negative }
{
    if negative {
        return i64::MIN.unsigned_abs();
    }
    i64::MAX.unsigned_abs()
}

// The number of a size, with or without a minus.
pub fn with_sign(negative: bool, n: u64) -> i64
    requires { n ≤ most_signed negative }
    ensures { result ≡ signed_of negative n }
{
    if negative {
        if n == 0 {
            return 0;
        }
        let x = (n - 1) as i64;
        return -1 - x;
    }
    n as i64
}
