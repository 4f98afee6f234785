// A reading put into lent slices.
#![tactic(auto)]

ghost use Rattle.std.specs.Prelude.{◌≡◌, ◌&&◌, [], ◌∷◌, leb, set};
ghost use Rattle.std.proofs.lemmas.List.Edits.{sets};
ghost use Rattle.convert.specs.Told.{told_shown};
ghost use Rattle.numbers.specs.Numbers.{kind_shown, number_shown, five_of};

use afresh::refresh::put;
use convert::fraction::{Physical, Shown};

// How many numbers a reading has: raw, state, the two numbers, what is shown.
const READING: usize = 5;

// Whether lent slices of these lengths have room for a reading and its shown number.
pub fn has_room(out: usize, shown: usize) -> bool
    ensures { result ≡ (leb 5 out && leb 1 shown) }
{
    (READING <= out) & (1 <= shown)
}

// What is shown, as a number: 0 nothing, 1 a number, 2 a text.
fn shown_kind(s: Shown) -> i64
    ensures { result ≡ kind_shown (told_shown s) }
{
    match s {
        Shown::Real(_) => 1,
        Shown::Words(_, _) => 2,
        Shown::Nothing => 0,
    }
}

// The shown number, 0 where there is none.
fn shown_number(s: Shown) -> f64
    ensures { result ≡ number_shown (told_shown s) }
{
    match s {
        Shown::Real(x) => x,
        Shown::Words(_, _) => 0.0,
        Shown::Nothing => 0.0,
    }
}

// Puts a reading's five numbers and the shown one into the lent slices.
pub fn put_reading(out: &mut [i64], shown: &mut [f64], raw: i64, p: Physical, s: Shown)
    ensures { (out.new ≡ sets out.old 0 (five_of raw p (told_shown s)))
        × (shown.new ≡ sets shown.old 0 (number_shown (told_shown s) ∷ [])) }
{
    put(out, 0, raw);
    put(out, 1, p.state as i64);
    put(out, 2, p.first);
    put(out, 3, p.second);
    put(out, 4, shown_kind(s));
    put(shown, 0, shown_number(s));
}
