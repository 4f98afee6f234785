// What raw numbers mean, and the line of an element.
ghost use Rattle.std.specs.Prelude.{◌≡◌, cond, ℕ};
ghost use Rattle.convert.specs.Fraction.{fraction_of};
ghost use Rattle.convert.specs.Told.{held};
ghost use Rattle.tables.specs.Form.{tables_in};
ghost use Rattle.tables.specs.Group.{storage_of, IsReachable};
ghost use Rattle.look.specs.Element.{text_at, means, line_of};
ghost use Rattle.look.specs.Steps.{meaning_of};

use crate::element::{Line, raw_by, record_before, text_at};
use crate::method::{asks_by, is_tab_verb};
use convert::fraction::Physical;
use convert::method::Coefficients;
use fraction::fraction::fraction_of;
use tables::form::{METHOD, slot_of};
use tables::group::{Storage, method_of};

// What a group's raw numbers mean by: a verbal table with its number, or coefficients.
// No enum: meaning_of answers the table's number and the coefficients for every group, as its clause says.
#[derive(Clone, Copy)]
pub struct Meaning {
    pub verbal: bool,
    pub table: u16,
    pub k: Coefficients,
}

// Where a method holds its verbal table.
const VERBAL: u16 = 9;

// What group g's raw numbers mean by, read once for all its elements.
pub fn meaning_of(t: &[u64], g: u16) -> Meaning
    ensures { result ≡ meaning_of t.now g }
{
    let s = slot_of(t, METHOD, record_before(method_of(t, g)), VERBAL);
    Meaning {
        verbal: is_tab_verb(t, g),
        table: record_before(s),
        k: asks_by(t, g),
    }
}

// What a raw number means by a verbal table or by coefficients.
fn means_by(t: &[u64], m: Meaning, raw: i64) -> Physical
    ensures { result ≡ held (cond m.verbal (text_at (tables_in t.now) m.table raw) (fraction_of m.k raw)) }
{
    if m.verbal {
        return text_at(t, m.table, raw);
    }
    fraction_of(m.k, raw)
}

// What a raw number of a group means.
pub fn means(t: &[u64], g: u16, raw: i64) -> Physical
    ensures { result ≡ held (means (tables_in t.now) g raw) }
{
    means_by(t, meaning_of(t, g), raw)
}

// A line of a raw number and what it means.
fn line_with(raw: i64, p: Physical) -> Line
    ensures { result ≡ record { raw = raw; state = p.state; first = p.first; second = p.second } }
{
    Line {
        raw,
        state: p.state,
        first: p.first,
        second: p.second,
    }
}

// The line of element i of a group, of which is known how it is stored and what its raw numbers mean by.
pub fn line_by(t: &[u64], image: &[u8], s: Storage, m: Meaning, i: u64) -> Line
    requires { IsReachable s i }
    ensures { (g : ℕ) → s ≡ storage_of (tables_in t.now) g → m ≡ meaning_of t.now g → result ≡ line_of (tables_in t.now) image.now g i }
{
    let raw = raw_by(image, s, i);
    line_with(raw, means_by(t, m, raw))
}
