// The groups: the parts of the objects, and the place of each element in the image.
ghost use Rattle.std.specs.Prelude.{◌≡◌, ◌/◌, ◌%◌, ◌^◌, ◌≤◌, ◌<◌, min};
ghost use Rattle.number.specs.Told.{scaled};
ghost use Rattle.cell.specs.Kind.{shape_of};
ghost use Rattle.tables.specs.Form.{tables_in, past_points, past_image, kind, first, place, x, y, wide, high, walk, method_of, mask, forbidden, counter, counter_place, limit};
ghost use Rattle.tables.specs.Group.{position, elements, bytes, place_of, storage_of, IsReachable, place_by};

use crate::form::{GROUP, slot_of};
use cell::kind::shape_of;
use number::decimal::Decimal;

// One past "4,096 elements in all objects", and one past "1 MiB of image".
const PAST_POINTS: u32 = 4097;

const PAST_IMAGE: u32 = 1048577;

// A group's numbers.
const WIDTH: u16 = 19;

// How an object's elements are stored: the last point first, and y fastest.
const LAST_FIRST: u64 = 1;

const Y_FASTEST: u64 = 2;

// A number of points, at most one past every capacity.
fn points(n: u64) -> u32
    ensures { result ≡ min n past_points }
{
    n.min(PAST_POINTS as u64) as u32
}

// A place in the image, at most one past the longest.
fn in_image(n: u64) -> u32
    ensures { result ≡ min n past_image }
{
    n.min(PAST_IMAGE as u64) as u32
}

// At most 7, as a power of ten.
fn power_of(n: u64) -> u32
    ensures { result ≡ min n 7 }
{
    n.min(7) as u32
}

// Each number of a group has a function of its own, since the contracts name a definition for each.

// A group's data type; 0 is a part that is not stored.
pub fn kind_of(t: &[u64], g: u16) -> u64
    ensures { result ≡ kind (tables_in t.now) g }
{
    slot_of(t, GROUP, g, 0)
}

// Whether a group's byte order is MSB_FIRST.
pub fn is_first(t: &[u64], g: u16) -> bool
    ensures { result ≡ first (tables_in t.now) g }
{
    slot_of(t, GROUP, g, 1) == 1
}

// The place of a group's first byte in the image.
pub fn start_of(t: &[u64], g: u16) -> u32
    ensures { result ≡ place (tables_in t.now) g }
{
    in_image(slot_of(t, GROUP, g, 2))
}

// A group's points in x.
pub fn x_of(t: &[u64], g: u16) -> u32
    ensures { result ≡ x (tables_in t.now) g }
{
    points(slot_of(t, GROUP, g, 3))
}

// A group's points in y.
pub fn y_of(t: &[u64], g: u16) -> u32
    ensures { result ≡ y (tables_in t.now) g }
{
    points(slot_of(t, GROUP, g, 4))
}

// A group's room in x.
pub fn wide_of(t: &[u64], g: u16) -> u32
    ensures { result ≡ wide (tables_in t.now) g }
{
    points(slot_of(t, GROUP, g, 5))
}

// A group's room in y.
pub fn high_of(t: &[u64], g: u16) -> u32
    ensures { result ≡ high (tables_in t.now) g }
{
    points(slot_of(t, GROUP, g, 6))
}

// How a group's elements are stored.
pub fn walk_of(t: &[u64], g: u16) -> u64
    ensures { result ≡ walk (tables_in t.now) g }
{
    slot_of(t, GROUP, g, 7)
}

// A group's method's number and one more; 0 is NO_COMPU_METHOD.
pub fn method_of(t: &[u64], g: u16) -> u64
    ensures { result ≡ method_of (tables_in t.now) g }
{
    slot_of(t, GROUP, g, 8)
}

// A group's mask; 0 is none.
pub fn mask_of(t: &[u64], g: u16) -> u64
    ensures { result ≡ mask (tables_in t.now) g }
{
    slot_of(t, GROUP, g, 9)
}

// Whether writing a group is forbidden.
pub fn is_forbidden(t: &[u64], g: u16) -> bool
    ensures { result ≡ forbidden (tables_in t.now) g }
{
    slot_of(t, GROUP, g, 10) != 0
}

// The data type of a group's stored count; 0 is none.
pub fn counter_of(t: &[u64], g: u16) -> u64
    ensures { result ≡ counter (tables_in t.now) g }
{
    slot_of(t, GROUP, g, 17)
}

// The place of a group's stored count in the image.
pub fn counter_place_of(t: &[u64], g: u16) -> u32
    ensures { result ≡ counter_place (tables_in t.now) g }
{
    in_image(slot_of(t, GROUP, g, 18))
}

// The decimal in three cells of a group: 11 the lower, 14 the upper limit.
pub fn limit_of(t: &[u64], g: u16, k: u16) -> Decimal
    ensures { scaled result ≡ limit (tables_in t.now) g k }
{
    if WIDTH <= k {
        return Decimal {
            negative: false,
            whole: 0,
            tens: 0,
        };
    }
    let sign = slot_of(t, GROUP, g, k);
    let whole = slot_of(t, GROUP, g, k + 1);
    let power = slot_of(t, GROUP, g, k + 2);
    Decimal {
        negative: sign == 1,
        whole,
        tens: power_of(power),
    }
}

// How many elements a group has.
pub fn elements_of(t: &[u64], g: u16) -> u64
    ensures { result ≡ elements (tables_in t.now) g }
{
    (x_of(t, g) as u64) * (y_of(t, g) as u64)
}

// How many bytes a data type has.
pub fn type_bytes(kind: u64) -> u32
    ensures { result ≡ (shape_of kind).bytes }
{
    shape_of(kind).bytes as u32
}

// How many bytes an element of a group has.
pub fn bytes_of(t: &[u64], g: u16) -> u32
    ensures { result ≡ bytes (tables_in t.now) g }
{
    type_bytes(kind_of(t, g))
}

// The y point of an index; 0 in a part without points.
fn y_point(i: u64, x: u32) -> u64
    ensures { result ≡ i / x }
{
    i.checked_div(x as u64).unwrap_or(0)
}

// The x point of an index; the index itself in a part without points.
fn x_point(i: u64, x: u32) -> u64
    ensures { result ≡ i % x }
{
    i.checked_rem(x as u64).unwrap_or(i)
}

// Where the index of a listing stands among the stored elements.
fn position_of(walk: u64, x: u32, wide: u32, high: u32, i: u64) -> u64
    requires { (wide ≤ past_points) × (high ≤ past_points) × (i < 2 ^ 40) }
    ensures { result ≡ position walk x wide high i }
{
    let a = x_point(i, x);
    let b = y_point(i, x);
    match walk {
        Y_FASTEST => a * (high as u64) + b,
        LAST_FIRST => (x as u64).saturating_sub(1).saturating_sub(i),
        _ => b * (wide as u64) + a,
    }
}

// How a group is stored: its data type, byte order, first byte's place, points and room in x and y, walk and mask.
#[derive(Clone, Copy)]
pub struct Storage {
    pub kind: u64,
    pub first: bool,
    pub place: u32,
    pub x: u32,
    pub y: u32,
    pub wide: u32,
    pub high: u32,
    pub walk: u64,
    pub mask: u64,
}

// How group g is stored, read once for all its elements.
pub fn storage_of(t: &[u64], g: u16) -> Storage
    ensures { result ≡ storage_of (tables_in t.now) g }
{
    Storage {
        kind: kind_of(t, g),
        first: is_first(t, g),
        place: start_of(t, g),
        x: x_of(t, g),
        y: y_of(t, g),
        wide: wide_of(t, g),
        high: high_of(t, g),
        walk: walk_of(t, g),
        mask: mask_of(t, g),
    }
}

// The place of the first byte of element i of what is stored so.
pub fn place_by(s: Storage, i: u64) -> u64
    requires { IsReachable s i }
    ensures { result ≡ place_by s i }
{
    let at = position_of(s.walk, s.x, s.wide, s.high, i);
    (s.place as u64) + (type_bytes(s.kind) as u64) * at
}

// The place of element i's first byte in the image.
pub fn place_of(t: &[u64], g: u16, i: u32) -> u64
    ensures { result ≡ place_of (tables_in t.now) g i }
{
    place_by(storage_of(t, g), i as u64)
}
