// The table rule for one group, a part of an object.
ghost use Rattle.std.specs.Prelude.{◌≡◌};
ghost use Rattle.tables.specs.Form.{tables_in};
ghost use Rattle.tables.specs.Rule.{is_no_part, points_rule, counter_rule, axis_rule, values_rule, limits_rule, bytes_rule, role_rule, part_rule, group_rule};

use crate::test::is_inside;
use crate::unused::has_zeros;
use cell::kind::is_type;
use cell::raw::keeps_mask_rule;
use convert::limit::at_most;
use tables::form::{GROUP, METHOD, PARTS, count_of, slot_of};
use tables::group::{
    bytes_of, counter_of, counter_place_of, high_of, kind_of, limit_of, mask_of, method_of,
    start_of, type_bytes, walk_of, wide_of, x_of, y_of,
};

// "4,096 elements in all objects", and the most points of an axis.
const MOST_POINTS: u32 = 4096;

const MOST_AXIS: u32 = 256;

// The numbers of a group, and of its lower and upper limit.
const WIDTH: u8 = 19;

const LOWER: u16 = 11;

const UPPER: u16 = 14;

// Whether a part that is not stored has zeros alone.
fn is_none(t: &[u64], g: u16) -> bool
    ensures { result ≡ is_no_part (tables_in t.now) g }
{
    has_zeros(t, GROUP, g, 0, WIDTH)
}

// Whether a part has points, not too many, and as much room.
fn keeps_points(t: &[u64], g: u16) -> bool
    ensures { result ≡ points_rule (tables_in t.now) g }
{
    let x = x_of(t, g);
    let y = y_of(t, g);
    let wide = wide_of(t, g);
    let high = high_of(t, g);
    (1 <= x) & (x <= MOST_POINTS) & (1 <= y) & (y <= MOST_POINTS) & (wide == x) & (high == y)
}

// Whether an axis's stored count is inside the image, or there is none.
fn keeps_counter(t: &[u64], g: u16, m: usize) -> bool
    ensures { result ≡ counter_rule (tables_in t.now) g m }
{
    let kind = counter_of(t, g);
    let cell = slot_of(t, GROUP, g, 18);
    let place = counter_place_of(t, g);
    let inside = is_inside(m, place, type_bytes(kind) as u64);
    ((kind == 0) & (cell == 0)) | (is_type(kind) & inside)
}

// Whether a part keeps the rule of axes.
fn keeps_axis(t: &[u64], g: u16, m: usize) -> bool
    ensures { result ≡ axis_rule (tables_in t.now) g m }
{
    let x = x_of(t, g);
    let y = y_of(t, g);
    let walk = walk_of(t, g);
    let mask = mask_of(t, g);
    let counter = keeps_counter(t, g, m);
    (x <= MOST_AXIS) & (y == 1) & (walk <= 1) & (mask == 0) & counter
}

// Whether a part keeps the rule of values.
fn keeps_values(t: &[u64], g: u16) -> bool
    ensures { result ≡ values_rule (tables_in t.now) g }
{
    let walk = walk_of(t, g);
    let mask = mask_of(t, g);
    let fits = keeps_mask_rule(kind_of(t, g), mask);
    let counter = counter_of(t, g);
    let cell = slot_of(t, GROUP, g, 18);
    ((walk == 0) | (walk == 2)) & ((mask == 0) | fits) & (counter == 0) & (cell == 0)
}

// Whether a part's limits are in order.
fn keeps_limits(t: &[u64], g: u16) -> bool
    ensures { result ≡ limits_rule (tables_in t.now) g }
{
    let lower = slot_of(t, GROUP, g, LOWER);
    let upper = slot_of(t, GROUP, g, UPPER);
    let ordered = at_most(limit_of(t, g, LOWER), limit_of(t, g, UPPER));
    (lower <= 1) & (upper <= 1) & ordered
}

// Whether a part's bytes are inside the image.
fn keeps_bytes(t: &[u64], g: u16, m: usize) -> bool
    ensures { result ≡ bytes_rule (tables_in t.now) g m }
{
    let room = (wide_of(t, g) as u64) * (high_of(t, g) as u64);
    is_inside(m, start_of(t, g), (bytes_of(t, g) as u64) * room)
}

// Whether a part keeps the rule of axes or of values, as its place in the object asks.
fn keeps_role(t: &[u64], g: u16, m: usize) -> bool
    ensures { result ≡ role_rule (tables_in t.now) g m }
{
    if g % PARTS < 2 {
        return keeps_axis(t, g, m);
    }
    keeps_values(t, g)
}

// Whether a part that is stored keeps the table rule.
fn keeps_part(t: &[u64], g: u16, m: usize) -> bool
    ensures { result ≡ part_rule (tables_in t.now) g m }
{
    let typed = is_type(kind_of(t, g));
    let order = slot_of(t, GROUP, g, 1);
    let points = keeps_points(t, g);
    let bytes = keeps_bytes(t, g, m);
    let role = keeps_role(t, g, m);
    let method = method_of(t, g);
    let methods = count_of(t, METHOD);
    let forbidden = slot_of(t, GROUP, g, 10);
    let limits = keeps_limits(t, g);
    typed
        & (order <= 1)
        & points
        & bytes
        & role
        & (method <= (methods as u64))
        & (forbidden <= 1)
        & limits
}

// Whether group g keeps the table rule.
pub fn keeps_group(t: &[u64], g: u16, m: usize) -> bool
    ensures { result ≡ group_rule (tables_in t.now) g m }
{
    if kind_of(t, g) == 0 {
        return is_none(t, g);
    }
    keeps_part(t, g, m)
}
