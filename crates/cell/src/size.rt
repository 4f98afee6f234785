// The size of a signed number.
ghost use Rattle.std.specs.Prelude.{◌≡◌, nat_abs};

// The size of a number.
pub fn size(x: i64) -> u64
    ensures { result ≡ nat_abs x }
{
    x.unsigned_abs()
}
