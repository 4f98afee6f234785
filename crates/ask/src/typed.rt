// What a person types: a part's letter, a raw number.
ghost use Rattle.std.specs.Prelude.{◌≡◌, drop};
ghost use Rattle.number.specs.Decimal.{signs};
ghost use Rattle.number.specs.Told.{told_whole};
ghost use Rattle.number.specs.Whole.{whole_from};
ghost use Rattle.number.specs.Signed.{most_signed};
ghost use Rattle.ask.specs.Typed.{part_of, raw_typed};
ghost use Rattle.ask.specs.Told.{told_typed};

use number::decimal::{is_minus, sign_len};
use number::digits::NoForm;
use number::signed::{most_signed, with_sign};
use runs::whole::whole_of;

// What a word is that names no part.
const NO_PART: u8 = 3;

// The part that a letter names: x is 0, y is 1, v is 2; any other word is 3.
pub fn part_of(s: &[u8]) -> u8
    ensures { result ≡ part_of s.now }
{
    match s {
        [b'x'] => 0,
        [b'y'] => 1,
        [b'v'] => 2,
        _ => NO_PART,
    }
}

// The whole number that decimal digits write, at most most. (No raw number is hex.)
fn digits_of(s: &[u8], most: u64) -> Result<u64, NoForm>
    ensures { told_whole result ≡ whole_from 10 most s.now }
{
    match s {
        [_, b'x', ..] => Err(NoForm),
        _ => whole_of(s, most),
    }
}

// The size that a word writes after its sign, at most what an i64 has.
fn size_of(s: &[u8], negative: bool) -> Result<u64, NoForm>
    ensures { told_whole result ≡ whole_from 10 (most_signed negative) (drop (signs s.now) s.now) }
{
    let at = sign_len(s);
    digits_of(&s[at..], most_signed(negative))
}

// The raw number that a word writes, or none.
pub fn raw_typed(s: &[u8]) -> Option<i64>
    ensures { told_typed result ≡ raw_typed s.now }
{
    let negative = is_minus(s);
    let n = size_of(s, negative).ok()?;
    Some(with_sign(negative, n))
}
