// What an object needs: its values and its axes.
ghost use Rattle.std.specs.Prelude.{◌≡◌};
ghost use Rattle.grammar.specs.Move.{view_in};
ghost use Rattle.objects.specs.Object.{no_axis, own_axis, value_need, axis_pts_need, axis_at, shared_by, shared_points, axis_need, characteristic_need, need_of, block_need, curve_need, map_need};

use crate::basis::basis_of;
use crate::layout::led;
use grammar::view::{AXIS, OBJECT, slot_of};
use judge::walk::place_parts;
use place::rules::{Axis, Need};
use rows::slots::{
    AXIS_ATTRIBUTE, AXIS_MAX_POINTS, AXIS_PTS_REF, AXIS_PTS_REF_PAST, BLOCK_CODE, FIRST_HELD,
    NUMBER_OF_VALUES, OBJECT_MAX_POINTS, OBJECT_TYPE,
};
use words::codes::{AXIS_PTS, CHARACTERISTIC, COM_AXIS, CURVE, MAP, VAL_BLK};

// The greatest MaxAxisPoints.
const POINTS: u64 = 256;

// The greatest NUMBER.
const NUMBERS: u64 = 65535;

// The most AXIS_DESCR of all objects.
const AXES: u64 = 1024;

// An axis that an object has not: one point of one.
fn no_axis() -> Axis
    ensures { result ≡ no_axis }
{
    Axis {
        stored: false,
        most: 1,
        points: 1,
    }
}

// An axis that an object stores, of at most so many points.
fn own_axis(most: u16) -> Axis
    ensures { result ≡ own_axis most }
{
    Axis {
        stored: true,
        most,
        points: most,
    }
}

// One value.
fn value_need() -> Need
    ensures { result ≡ value_need }
{
    let x = no_axis();
    let y = no_axis();
    Need { values: true, x, y }
}

// An AXIS_PTS: its points in x.
fn axis_pts_need(t: &[u64], i: u16) -> Need
    ensures { result ≡ axis_pts_need (view_in t.now) i }
{
    let most = slot_of(t, OBJECT, i, OBJECT_MAX_POINTS).min(POINTS) as u16;
    let x = own_axis(most);
    let y = no_axis();
    Need {
        values: false,
        x,
        y,
    }
}

// The place of AXIS_DESCR k of object i among all of them.
pub fn axis_at(t: &[u64], i: u16, k: u8) -> u16
    ensures { result ≡ axis_at (view_in t.now) i k }
{
    let first = slot_of(t, OBJECT, i, FIRST_HELD).min(AXES) as u16;
    first + (k as u16)
}

// The AXIS_PTS that AXIS_DESCR a names.
pub fn shared_by(x: &[u8], t: &[u64], a: u16) -> u16
    ensures { result ≡ shared_by x.now (view_in t.now) a }
{
    let from = slot_of(t, AXIS, a, AXIS_PTS_REF as u16) as usize;
    let to = slot_of(t, AXIS, a, AXIS_PTS_REF_PAST) as usize;
    led(x, t, OBJECT, from, to)
}

// How many points AXIS_PTS s has.
fn shared_points(image: &[u8], base: u32, x: &[u8], t: &[u64], s: u16) -> u16
    ensures { result ≡ shared_points image.now base x.now (view_in t.now) s }
{
    let b = basis_of(x, t, base, s);
    let n = axis_pts_need(t, s);
    match place_parts(image, b.footing, n, b.layout) {
        Ok(r) => r.places.cx,
        Err(_) => 0,
    }
}

// What AXIS_DESCR a needs.
fn axis_need(image: &[u8], base: u32, x: &[u8], t: &[u64], a: u16) -> Axis
    ensures { result ≡ axis_need image.now base x.now (view_in t.now) a }
{
    let most = slot_of(t, AXIS, a, AXIS_MAX_POINTS).min(POINTS) as u16;
    if slot_of(t, AXIS, a, AXIS_ATTRIBUTE) == (COM_AXIS as u64) {
        let s = shared_by(x, t, a);
        let points = shared_points(image, base, x, t, s);
        return Axis {
            stored: false,
            most,
            points,
        };
    }
    own_axis(most)
}

// A VAL_BLK: NUMBER values.
fn block_need(t: &[u64], i: u16) -> Need
    ensures { result ≡ block_need (view_in t.now) i }
{
    let most = slot_of(t, OBJECT, i, NUMBER_OF_VALUES).min(NUMBERS) as u16;
    let y = no_axis();
    let x = Axis {
        stored: false,
        most,
        points: most,
    };
    Need { values: true, x, y }
}

// A CURVE: values over its x axis.
fn curve_need(image: &[u8], base: u32, x: &[u8], t: &[u64], i: u16) -> Need
    ensures { result ≡ curve_need image.now base x.now (view_in t.now) i }
{
    let a = axis_at(t, i, 0);
    let ax = axis_need(image, base, x, t, a);
    let ay = no_axis();
    Need {
        values: true,
        x: ax,
        y: ay,
    }
}

// A MAP: values over its x axis and its y axis.
fn map_need(image: &[u8], base: u32, x: &[u8], t: &[u64], i: u16) -> Need
    ensures { result ≡ map_need image.now base x.now (view_in t.now) i }
{
    let a = axis_at(t, i, 0);
    let ax = axis_need(image, base, x, t, a);
    let b = axis_at(t, i, 1);
    let ay = axis_need(image, base, x, t, b);
    Need {
        values: true,
        x: ax,
        y: ay,
    }
}

// What CHARACTERISTIC i needs.
fn characteristic_need(image: &[u8], base: u32, x: &[u8], t: &[u64], i: u16) -> Need
    ensures { result ≡ characteristic_need image.now base x.now (view_in t.now) i }
{
    let kind = slot_of(t, OBJECT, i, OBJECT_TYPE);
    if kind == (VAL_BLK as u64) {
        return block_need(t, i);
    }
    if kind == (CURVE as u64) {
        return curve_need(image, base, x, t, i);
    }
    if kind == (MAP as u64) {
        return map_need(image, base, x, t, i);
    }
    value_need()
}

// What object i needs.
pub fn need_of(image: &[u8], base: u32, x: &[u8], t: &[u64], i: u16) -> Need
    ensures { result ≡ need_of image.now base x.now (view_in t.now) i }
{
    let class = slot_of(t, OBJECT, i, BLOCK_CODE);
    if class == (AXIS_PTS as u64) {
        return axis_pts_need(t, i);
    }
    if class == (CHARACTERISTIC as u64) {
        return characteristic_need(image, base, x, t, i);
    }
    value_need()
}
