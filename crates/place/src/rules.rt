// The rules of place that a layout keeps.
ghost use Rattle.std.specs.Prelude.{◌≡◌};
ghost use Rattle.place.specs.Rules.{apart, comes_before, distinct, counted, matching, sound_layout};

use crate::order::{Entry, Layout};

// An axis of an object: whether the object stores it, the most points it may have, and how many it has where it is not stored.
// An axis that the object has not is not stored, and has one point of one.
#[derive(Clone, Copy)]
pub struct Axis {
    pub stored: bool,
    pub most: u16,
    pub points: u16,
}

// What an object needs: values or none, and its axes.
#[derive(Clone, Copy)]
pub struct Need {
    pub values: bool,
    pub x: Axis,
    pub y: Axis,
}

// Two parts that both stand have different positions.
fn are_apart(p: Entry, q: Entry) -> bool
    ensures { result ≡ apart p q }
{
    !(p.present & q.present & (p.position == q.position))
}

// Of two parts that both stand, the first comes before.
fn is_before(p: Entry, q: Entry) -> bool
    ensures { result ≡ comes_before p q }
{
    !(p.present & q.present) | (p.position < q.position)
}

// No two parts have equal positions.
fn all_apart(l: Layout) -> bool
    ensures { result ≡ distinct l }
{
    let v = l.values;
    let x = l.x;
    let y = l.y;
    let nx = l.nx;
    let ny = l.ny;
    let a = are_apart(v, x) & are_apart(v, y) & are_apart(v, nx) & are_apart(v, ny);
    let b = are_apart(x, y) & are_apart(x, nx) & are_apart(x, ny);
    let c = are_apart(y, nx) & are_apart(y, ny);
    let d = are_apart(nx, ny);
    a & b & c & d
}

// A count part comes before its axis and before the values.
fn are_counted(l: Layout) -> bool
    ensures { result ≡ counted l }
{
    is_before(l.nx, l.x)
        & is_before(l.nx, l.values)
        & is_before(l.ny, l.y)
        & is_before(l.ny, l.values)
}

// The parts that the object needs, and no others.
fn are_matching(n: Need, l: Layout) -> bool
    ensures { result ≡ matching n l }
{
    (n.values == l.values.present)
        & (n.x.stored == l.x.present)
        & (n.y.stored == l.y.present)
        & (n.x.stored | !l.nx.present)
        & (n.y.stored | !l.ny.present)
}

// Whether a layout keeps the rules of place for its object.
pub fn is_sound(n: Need, l: Layout) -> bool
    ensures { result ≡ sound_layout n l }
{
    are_matching(n, l) & all_apart(l) & are_counted(l)
}
