// TAB_VERB: a raw number's text in a verbal table, whose entries are records in lent cells.
ghost use Rattle.std.specs.Prelude.{◌≡◌, not, ◌+◌, ◌<◌, eqb, pos};
ghost use Rattle.number.specs.Signed.{signed_of};
ghost use Rattle.convert.specs.Whole.{eq_z};
ghost use Rattle.convert.specs.Fraction.{text};
ghost use Rattle.convert.specs.Verbal.{place_in, entry_of, default_of, verbal_of};
ghost use Rattle.convert.specs.Told.{held};
ghost use Rattle.records.specs.Cells.{slot_in};

use cell::size::size;
use convert::fraction::{NONE, Physical, TEXT};
use records::{Section, slot};

// The numbers of an entry: its number's sign and size, its text's first byte and the one past it.
const SIGN: u16 = 0;

const SIZE: u16 = 1;

const FIRST: u16 = 2;

const PAST: u16 = 3;

// Whether a sign and a size are those of a number.
fn is_number(sign: u64, m: u64, raw: i64) -> bool
    ensures { result ≡ eq_z (signed_of (not (eqb sign 0)) m) raw }
{
    let n = size(raw);
    if raw < 0 {
        return (sign != 0) & (m == n);
    }
    ((sign == 0) | (m == 0)) & (m == n)
}

// Whether entry e has a raw number.
fn has_number(t: &[u64], c: Section, e: u16, raw: i64) -> bool
    ensures { result ≡ eq_z (entry_of (slot_in t.now c e)).number raw }
{
    is_number(slot(t, c, e, SIGN), slot(t, c, e, SIZE), raw)
}

// A text place as a line holds it; a number too large for any place counts as 0.
fn place_in(n: u64) -> i64
    ensures { result ≡ pos (place_in n) }
{
    i64::try_from(n).unwrap_or(0)
}

// The text between two places.
fn text_between(first: u64, past: u64) -> Physical
    ensures { result ≡ held (text (place_in first) (place_in past)) }
{
    Physical {
        state: TEXT,
        first: place_in(first),
        second: place_in(past),
    }
}

// The text of entry e.
fn entry_text(t: &[u64], c: Section, e: u16) -> Physical
    ensures { result ≡ held (text (entry_of (slot_in t.now c e)).first (entry_of (slot_in t.now c e)).past) }
{
    text_between(slot(t, c, e, FIRST), slot(t, c, e, PAST))
}

// The default's text, or none where both places are 0.
fn default_text(first: u64, past: u64) -> Physical
    ensures { result ≡ held (default_of (place_in first) (place_in past)) }
{
    if (place_in(first) == 0) & (place_in(past) == 0) {
        return Physical {
            state: NONE,
            first: 0,
            second: 0,
        };
    }
    text_between(first, past)
}

// The text of a raw number in the table of count entries from entry from on, in section c, with the default's two places.
pub fn text_of(
    t: &[u64],
    c: Section,
    from: u16,
    count: u16,
    first: u64,
    past: u64,
    raw: i64,
) -> Physical
    requires { from + count < 65536 }
    ensures { result ≡ held (verbal_of (slot_in t.now c) from count first past raw) }
{
    for e in from..from + count {
        if has_number(t, c, e, raw) {
            return entry_text(t, c, e);
        }
    }
    default_text(first, past)
}
