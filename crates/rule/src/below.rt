// A test of each number below a count.
ghost use Rattle.std.specs.Prelude.{◌≡◌, ℕ, ◌<◌, Bool};
ghost use Rattle.number.specs.Below.{all_below};

// Whether each number below n keeps a rule.
pub fn all_below<F: Fn(u16) -> bool>(n: u16, keeps: F) -> bool
    requires { (i : ℕ) → i < n → F.pre keeps i }
    ensures { (f : ℕ → Bool) → ((i : ℕ) (r : Bool) → i < n → F.post keeps i r → r ≡ f i) → result ≡ all_below n f }
{
    for i in 0..n {
        if !keeps(i) {
            return false;
        }
    }
    true
}
