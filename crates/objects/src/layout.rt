// The layout of an object.
ghost use Rattle.std.specs.Prelude.{◌≡◌};
ghost use Rattle.grammar.specs.Move.{view_in};
ghost use Rattle.objects.specs.Object.{led, part, layout_at, no_entry, measured, layout_number};

use cell::kind::is_type;
use grammar::names::find;
use grammar::view::{LAYOUT, OBJECT, slot_of};
use place::order::{Entry, Layout};
use rows::slots::{
    AXIS_PTS_X_POSITION, AXIS_PTS_X_TYPE, AXIS_PTS_Y_POSITION, AXIS_PTS_Y_TYPE,
    FNC_VALUES_POSITION, FNC_VALUES_TYPE, NO_AXIS_PTS_X_POSITION, NO_AXIS_PTS_X_TYPE,
    NO_AXIS_PTS_Y_POSITION, NO_AXIS_PTS_Y_TYPE, OBJECT_LAYOUT, OBJECT_LAYOUT_PAST,
};

// The greatest Position.
const POSITION: u64 = 65535;

// The record of section j that the name from a up to e leads to.
pub fn led(x: &[u8], t: &[u64], j: u8, a: usize, e: usize) -> u16
    ensures { result ≡ led x.now (view_in t.now) j a e }
{
    find(x, t, j, a, e).unwrap_or(0)
}

// What layout l says of a part: its Position in slot p, its data type in slot k.
fn part_at(t: &[u64], l: u16, p: u16, k: u16) -> Entry
    ensures { result ≡ part (view_in t.now) l p k }
{
    let kind = slot_of(t, LAYOUT, l, k);
    let position = slot_of(t, LAYOUT, l, p).min(POSITION) as u16;
    let present = is_type(kind);
    Entry {
        present,
        position,
        kind,
    }
}

// Layout l.
pub fn layout_at(t: &[u64], l: u16) -> Layout
    ensures { result ≡ layout_at (view_in t.now) l }
{
    let values = part_at(t, l, FNC_VALUES_POSITION, FNC_VALUES_TYPE);
    let x = part_at(t, l, AXIS_PTS_X_POSITION, AXIS_PTS_X_TYPE);
    let y = part_at(t, l, AXIS_PTS_Y_POSITION, AXIS_PTS_Y_TYPE);
    let nx = part_at(t, l, NO_AXIS_PTS_X_POSITION, NO_AXIS_PTS_X_TYPE);
    let ny = part_at(t, l, NO_AXIS_PTS_Y_POSITION, NO_AXIS_PTS_Y_TYPE);
    Layout {
        values,
        x,
        y,
        nx,
        ny,
    }
}

// A part that a layout has not.
fn no_entry() -> Entry
    ensures { result ≡ no_entry }
{
    Entry {
        present: false,
        position: 0,
        kind: 0,
    }
}

// The layout of a MEASUREMENT: one value of its data type.
pub fn measured(k: u64) -> Layout
    ensures { result ≡ measured k }
{
    let present = is_type(k);
    let absent = no_entry();
    let values = Entry {
        present,
        position: 0,
        kind: k,
    };
    Layout {
        values,
        x: absent,
        y: absent,
        nx: absent,
        ny: absent,
    }
}

// The number of object i's layout.
pub fn layout_number(x: &[u8], t: &[u64], i: u16) -> u16
    ensures { result ≡ layout_number x.now (view_in t.now) i }
{
    let a = slot_of(t, OBJECT, i, OBJECT_LAYOUT as u16) as usize;
    let e = slot_of(t, OBJECT, i, OBJECT_LAYOUT_PAST) as usize;
    led(x, t, LAYOUT, a, e)
}
