// The table rule for one object: its name, and the parts that what it is asks for.
ghost use Rattle.std.specs.Prelude.{◌≡◌, ◌<◌};
ghost use Rattle.number.specs.Most.{most_objects};
ghost use Rattle.tables.specs.Form.{tables_in};
ghost use Rattle.tables.specs.Rule.{axis_pts_rule, block_rule, value_rule, measurement_rule, curve_rule, map_rule, parts_rule, object_rule};

use crate::test::{AXIS_PTS, CURVE, MAP, MEASUREMENT, VAL_BLK, VALUE, is_text};
use tables::form::{GROUP, OBJECT, PARTS, slot_of};
use tables::group::{kind_of, x_of, y_of};

// The number of a group that says whether writing is forbidden.
const FORBIDDEN: u16 = 10;

// Whether an AXIS_PTS has x points alone.
fn keeps_axis_pts(t: &[u64], i: u16) -> bool
    requires { i < most_objects }
    ensures { result ≡ axis_pts_rule (tables_in t.now) i }
{
    let x = kind_of(t, i * PARTS);
    let y = kind_of(t, i * PARTS + 1);
    let values = kind_of(t, i * PARTS + 2);
    (x != 0) & (y == 0) & (values == 0)
}

// Whether a VAL_BLK has values alone, in one row.
fn keeps_block(t: &[u64], i: u16) -> bool
    requires { i < most_objects }
    ensures { result ≡ block_rule (tables_in t.now) i }
{
    let x = kind_of(t, i * PARTS);
    let y = kind_of(t, i * PARTS + 1);
    let values = kind_of(t, i * PARTS + 2);
    let rows = y_of(t, i * PARTS + 2);
    (x == 0) & (y == 0) & (values != 0) & (rows == 1)
}

// Whether a VALUE has one element.
fn keeps_value(t: &[u64], i: u16) -> bool
    requires { i < most_objects }
    ensures { result ≡ value_rule (tables_in t.now) i }
{
    let block = keeps_block(t, i);
    let points = x_of(t, i * PARTS + 2);
    block & (points == 1)
}

// Whether a MEASUREMENT has one element, which is marked as not to be written.
fn keeps_measurement(t: &[u64], i: u16) -> bool
    requires { i < most_objects }
    ensures { result ≡ measurement_rule (tables_in t.now) i }
{
    let value = keeps_value(t, i);
    let mark = slot_of(t, GROUP, i * PARTS + 2, FORBIDDEN);
    value & (mark == 1)
}

// Whether a CURVE has values in one row, and no y points.
fn keeps_curve(t: &[u64], i: u16) -> bool
    requires { i < most_objects }
    ensures { result ≡ curve_rule (tables_in t.now) i }
{
    let y = kind_of(t, i * PARTS + 1);
    let values = kind_of(t, i * PARTS + 2);
    let rows = y_of(t, i * PARTS + 2);
    (y == 0) & (values != 0) & (rows == 1)
}

// Whether a MAP has values.
fn keeps_map(t: &[u64], i: u16) -> bool
    requires { i < most_objects }
    ensures { result ≡ map_rule (tables_in t.now) i }
{
    kind_of(t, i * PARTS + 2) != 0
}

// Whether object i has the parts that what it is asks for; what no object is has none.
fn keeps_parts(t: &[u64], i: u16, what: u64) -> bool
    requires { i < most_objects }
    ensures { result ≡ parts_rule (tables_in t.now) i what }
{
    match what {
        AXIS_PTS => keeps_axis_pts(t, i),
        MEASUREMENT => keeps_measurement(t, i),
        VALUE => keeps_value(t, i),
        VAL_BLK => keeps_block(t, i),
        CURVE => keeps_curve(t, i),
        MAP => keeps_map(t, i),
        _ => false,
    }
}

// Whether object i has its name inside the description, and its parts.
pub fn keeps_object(t: &[u64], n: usize, i: u16) -> bool
    requires { i < most_objects }
    ensures { result ≡ object_rule (tables_in t.now) n i }
{
    let first = slot_of(t, OBJECT, i, 0);
    let past = slot_of(t, OBJECT, i, 1);
    let what = slot_of(t, OBJECT, i, 2);
    let text = is_text(n, first, past);
    let parts = keeps_parts(t, i, what);
    text & parts
}
