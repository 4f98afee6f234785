// The objects' rows: name, and what each is.
ghost use Rattle.std.specs.Prelude.{◌≡◌};
ghost use Rattle.rows.specs.Sections.{object};
ghost use Rattle.grammar.specs.Move.{view_in};
ghost use Rattle.tables.specs.Form as form;
ghost use Rattle.build.specs.Build.{rows_below, type_of, what_of, object_row};
ghost use Rattle.build.specs.Row.{row_in, rows_in};

use crate::row::put_row;
use grammar::view::{OBJECT, count_of, slot_of};
use rows::slots::{BLOCK_CODE, OBJECT_TYPE, OWN_NAME, OWN_NAME_PAST};
use words::codes::{AXIS_PTS, CHARACTERISTIC, CURVE, MAP, MEASUREMENT, VAL_BLK, VALUE};

// A CHARACTERISTIC's type, by the word's code: any other is a VALUE.
fn type_of(kind: u64) -> u64
    ensures { result ≡ type_of kind }
{
    if kind == (VAL_BLK as u64) {
        return VAL_BLK as u64;
    }
    if kind == (CURVE as u64) {
        return CURVE as u64;
    }
    if kind == (MAP as u64) {
        return MAP as u64;
    }
    VALUE as u64
}

// What object i is, by its word's code.
pub fn what_of(t: &[u64], i: u16) -> u64
    ensures { result ≡ what_of (view_in t.now) i }
{
    let class = slot_of(t, OBJECT, i, BLOCK_CODE);
    if class == (AXIS_PTS as u64) {
        return AXIS_PTS as u64;
    }
    if class == (CHARACTERISTIC as u64) {
        return type_of(slot_of(t, OBJECT, i, OBJECT_TYPE));
    }
    MEASUREMENT as u64
}

// The row of object i.
fn put_object(u: &mut [u64], t: &[u64], i: u16)
    ensures { u.new ≡ row_in u.old form.object_section (object_row (view_in t.now) i) }
{
    let from = slot_of(t, OBJECT, i, OWN_NAME);
    let to = slot_of(t, OBJECT, i, OWN_NAME_PAST);
    let what = what_of(t, i);
    put_row(u, tables::form::OBJECT, &[from, to, what]);
}

// The rows of all objects.
pub fn put_objects(u: &mut [u64], t: &[u64])
    ensures { u.new ≡ rows_in u.old form.object_section (rows_below ((view_in t.now).counts object) (object_row (view_in t.now))) }
{
    for i in 0..count_of(t, OBJECT) {
        put_object(u, t, i);
    }
}
