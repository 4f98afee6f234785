// One element: its raw number, and the texts of verbal tables.
ghost use Rattle.std.specs.Prelude.{◌≡◌, ◌-◌, min};
ghost use Rattle.number.specs.Most.{most_entries};
ghost use Rattle.convert.specs.Told.{held};
ghost use Rattle.cell.specs.Kind.{shape_of};
ghost use Rattle.cell.specs.Raw.{raw_at};
ghost use Rattle.tables.specs.Form.{tables_in};
ghost use Rattle.tables.specs.Group.{IsReachable, place_by};
ghost use Rattle.look.specs.Element.{past_records, text_at, raw_in};

use cell::raw::read_raw;
use convert::fraction::Physical;
use tables::form::{ENTRY, TABLE, section_of, slot_of};
use tables::group::{Storage, place_by, storage_of};
use verbal::text::text_of;

// A line of the list: the raw number, the state (0 none, 1 number, 2 text), and its two numbers or places.
// The state is a number, as the lent columns and the C interface hold it.
#[derive(Clone, Copy)]
pub struct Line {
    pub raw: i64,
    pub state: u8,
    pub first: i64,
    pub second: i64,
}

// The most entries of all verbal tables.
const MOST_ENTRIES: u64 = 1024;

// No section has this many records.
const PAST_RECORDS: u64 = 65535;

// The number of a record. One too large for any record becomes one that no record has.
pub fn record_of(n: u64) -> u16
    ensures { result ≡ min n past_records }
{
    n.min(PAST_RECORDS) as u16
}

// The record whose number and one more is n.
pub fn record_before(n: u64) -> u16
    ensures { result ≡ min (n - 1) past_records }
{
    record_of(n.saturating_sub(1))
}

// A number of entries, at most those of all tables.
fn entries(n: u64) -> u16
    ensures { result ≡ min n most_entries }
{
    n.min(MOST_ENTRIES) as u16
}

// The text that a verbal table gives.
pub fn text_at(t: &[u64], s: u16, raw: i64) -> Physical
    ensures { result ≡ held (text_at (tables_in t.now) s raw) }
{
    let from = slot_of(t, TABLE, s, 0);
    let many = slot_of(t, TABLE, s, 1);
    let first = slot_of(t, TABLE, s, 2);
    let past = slot_of(t, TABLE, s, 3);
    text_of(
        t,
        section_of(ENTRY),
        entries(from),
        entries(many),
        first,
        past,
        raw,
    )
}

// The raw number of element i of what is stored so.
pub fn raw_by(image: &[u8], s: Storage, i: u64) -> i64
    requires { IsReachable s i }
    ensures { result ≡ raw_at s.first (place_by s i) (shape_of s.kind) s.mask image.now }
{
    let at = place_by(s, i) as usize;
    read_raw(image, at, s.kind, s.first, s.mask)
}

// The raw number of an element.
pub fn raw_of(t: &[u64], image: &[u8], g: u16, i: u32) -> i64
    ensures { result ≡ raw_in (tables_in t.now) image.now g i }
{
    raw_by(image, storage_of(t, g), i as u64)
}
