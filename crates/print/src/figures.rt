// Bytes and numbers, put into a buffer from a place on. What is past the buffer's end is counted and stored nowhere.
ghost use Rattle.std.specs.Prelude.{[], ◌∷◌, ◌+◌, ◌≤◌, ◌<◌, ◌^◌};
ghost use Rattle.print.specs.Print.{figures_of, signed};
ghost use Rattle.print.specs.Put.{Put};

// The figure 0, and the minus sign.
const ZERO: u8 = b'0';

pub const MINUS: u8 = b'-';

// How many figures a number of 64 bits has at most.
const FIGURES: u8 = 20;

// Puts one byte.
pub fn put_byte(out: &mut [u8], at: usize, b: u8) -> usize
    requires { at < 2 ^ 60 }
    ensures { Put at (b ∷ []) out.old result out.new }
{
    if at < out.len() {
        out[at] = b;
    }
    at + 1
}

// Puts the figures of a number, of at most f of them.
fn put_some(out: &mut [u8], at: usize, f: u8, n: u64) -> usize
    requires { at < 2 ^ 59 }
    ensures { Put at (figures_of f n) out.old result out.new × (result ≤ at + f) }
{
    if f == 0 {
        return at;
    }
    if n < 10 {
        return put_byte(out, at, ZERO + (n as u8));
    }
    let e = put_some(out, at, f - 1, n / 10);
    put_byte(out, e, ZERO + ((n % 10) as u8))
}

// Puts the figures of a number.
pub fn put_figures(out: &mut [u8], at: usize, n: u64) -> usize
    requires { at < 2 ^ 59 }
    ensures { Put at (figures_of 20 n) out.old result out.new × (result ≤ at + 20) }
{
    put_some(out, at, FIGURES, n)
}

// Puts a number, with its sign where it is below zero.
pub fn put_signed(out: &mut [u8], at: usize, z: i64) -> usize
    requires { at < 2 ^ 58 }
    ensures { Put at (signed z) out.old result out.new × (result ≤ at + 21) }
{
    let n = z.unsigned_abs();
    if z < 0 {
        let e = put_byte(out, at, MINUS);
        return put_figures(out, e, n);
    }
    put_figures(out, at, n)
}
