// The groups' rows: the parts of each object.
ghost use Rattle.std.specs.Prelude.{◌≡◌, [], ◌∷◌, ◌-◌};
ghost use Rattle.rows.specs.Sections.{object};
ghost use Rattle.grammar.specs.Move.{view_in};
ghost use Rattle.tables.specs.Form.{group_section};
ghost use Rattle.build.specs.Build.{of_object, of_axis, x_source, values_walk, mask_of, x_part, y_part, values_part, known_of, groups_below};
ghost use Rattle.build.specs.Row.{row_in, rows_in, axis_spot};

use build::object::what_of;
use build::part::{Known, Source, Spot, put_axis, put_none, put_values};
use grammar::view::{AXIS, LAYOUT, OBJECT, count_of, slot_of};
use objects::basis::basis_of;
use objects::ground::first_of;
use objects::need::{axis_at, need_of};
use objects::object::places_by;
use rows::slots::{
    AXIS_CONVERSION, AXIS_LOWER_LIMIT, AXIS_PTS_X_ORDER, AXIS_PTS_Y_ORDER, AXIS_READ_ONLY_SEEN,
    AXIS_UPPER_LIMIT, BIT_MASK, BIT_MASK_SEEN, BLOCK_CODE, FNC_VALUES_MODE, OBJECT_CONVERSION,
    OBJECT_LOWER_LIMIT, OBJECT_READ_ONLY_SEEN, OBJECT_UPPER_LIMIT,
};
use words::codes::{AXIS_PTS, COLUMN_DIR, INDEX_DECR, MAP, MEASUREMENT};

// The walk of values where y runs fastest.
const Y_FASTEST: u64 = 2;

// What is known of object i.
fn known_of(image: &[u8], base: u32, x: &[u8], t: &[u64], i: u16) -> Known
    ensures { result ≡ known_of image.now base x.now (view_in t.now) i }
{
    let need = need_of(image, base, x, t, i);
    let basis = basis_of(x, t, base, i);
    let layout = basis.layout;
    let places = places_by(image, basis, need);
    let first = first_of(t, i);
    Known {
        need,
        layout,
        places,
        first,
        number: basis.number,
    }
}

// The conversion, limits and READ_ONLY of object i.
fn of_object(i: u16) -> Source
    ensures { result ≡ of_object i }
{
    Source {
        sec: OBJECT,
        number: i,
        conversion: OBJECT_CONVERSION,
        lower: OBJECT_LOWER_LIMIT,
        upper: OBJECT_UPPER_LIMIT,
        only: OBJECT_READ_ONLY_SEEN,
    }
}

// Those of AXIS_DESCR a.
fn of_axis(a: u16) -> Source
    ensures { result ≡ of_axis a }
{
    Source {
        sec: AXIS,
        number: a,
        conversion: AXIS_CONVERSION,
        lower: AXIS_LOWER_LIMIT,
        upper: AXIS_UPPER_LIMIT,
        only: AXIS_READ_ONLY_SEEN,
    }
}

// Those of object i's x points.
fn x_source(t: &[u64], i: u16) -> Source
    ensures { result ≡ x_source (view_in t.now) i }
{
    if slot_of(t, OBJECT, i, BLOCK_CODE) == (AXIS_PTS as u64) {
        return of_object(i);
    }
    of_axis(axis_at(t, i, 0))
}

// The walk of values: 2 where y runs fastest, in a MAP only.
fn values_walk(t: &[u64], i: u16, l: u16) -> u64
    ensures { result ≡ values_walk (view_in t.now) i l }
{
    let what = what_of(t, i);
    let mode = slot_of(t, LAYOUT, l, FNC_VALUES_MODE);
    if (what == (MAP as u64)) & (mode == (COLUMN_DIR as u64)) {
        return Y_FASTEST;
    }
    0
}

// Object i's BIT_MASK, 0 where there is none.
fn mask_of(t: &[u64], i: u16) -> u64
    ensures { result ≡ mask_of (view_in t.now) i }
{
    if slot_of(t, OBJECT, i, BIT_MASK_SEEN) == 0 {
        return 0;
    }
    slot_of(t, OBJECT, i, BIT_MASK)
}

// Where an axis stands, with its index mode in slot k of layout l.
fn axis_spot(
    t: &[u64],
    kind: u64,
    first: bool,
    place: u64,
    base: u32,
    cx: u16,
    l: u16,
    k: u16,
) -> Spot
    ensures { result ≡ axis_spot (view_in t.now) kind first place base cx l k }
{
    let mode = slot_of(t, LAYOUT, l, k);
    let walk = u64::from(mode == (INDEX_DECR as u64));
    let at = place.saturating_sub(base as u64);
    Spot {
        kind,
        first,
        place: at,
        cx,
        cy: 1,
        walk,
    }
}

// The x points of object i.
fn put_x(u: &mut [u64], x: &[u8], t: &[u64], base: u32, i: u16, o: Known)
    ensures { u.new ≡ row_in u.old group_section (x_part base x.now (view_in t.now) i o) }
{
    let need = o.need;
    let axis = need.x;
    if axis.stored {
        let layout = o.layout;
        let entry = layout.x;
        let counter = layout.nx;
        let p = o.places;
        let spot = axis_spot(
            t,
            entry.kind,
            o.first,
            p.x,
            base,
            p.cx,
            o.number,
            AXIS_PTS_X_ORDER,
        );
        let source = x_source(t, i);
        let at = p.nx.saturating_sub(base as u64);
        put_axis(u, x, t, spot, source, counter, at);
        return;
    }
    put_none(u);
}

// The y points of object i. One function for x and y would take what they differ in, fields of four structs, as parameters.
fn put_y(u: &mut [u64], x: &[u8], t: &[u64], base: u32, i: u16, o: Known)
    ensures { u.new ≡ row_in u.old group_section (y_part base x.now (view_in t.now) i o) }
{
    let need = o.need;
    let axis = need.y;
    if axis.stored {
        let layout = o.layout;
        let entry = layout.y;
        let counter = layout.ny;
        let p = o.places;
        let spot = axis_spot(
            t,
            entry.kind,
            o.first,
            p.y,
            base,
            p.cy,
            o.number,
            AXIS_PTS_Y_ORDER,
        );
        let source = of_axis(axis_at(t, i, 1));
        let at = p.ny.saturating_sub(base as u64);
        put_axis(u, x, t, spot, source, counter, at);
        return;
    }
    put_none(u);
}

// Where values stand.
fn values_spot(t: &[u64], i: u16, base: u32, o: Known) -> Spot
    ensures { result ≡ record { kind = o.layout.values.kind; first = o.first; place = o.places.values - base; cx = o.places.cx; cy = o.places.cy; walk = values_walk (view_in t.now) i o.number } }
{
    let layout = o.layout;
    let entry = layout.values;
    let p = o.places;
    let walk = values_walk(t, i, o.number);
    let at = p.values.saturating_sub(base as u64);
    Spot {
        kind: entry.kind,
        first: o.first,
        place: at,
        cx: p.cx,
        cy: p.cy,
        walk,
    }
}

// The values of object i.
fn put_values_of(u: &mut [u64], x: &[u8], t: &[u64], base: u32, i: u16, o: Known)
    ensures { u.new ≡ row_in u.old group_section (values_part base x.now (view_in t.now) i o) }
{
    let need = o.need;
    if need.values {
        let spot = values_spot(t, i, base, o);
        let mask = mask_of(t, i);
        let what = what_of(t, i);
        put_values(
            u,
            x,
            t,
            spot,
            of_object(i),
            mask,
            what == (MEASUREMENT as u64),
        );
        return;
    }
    put_none(u);
}

// The parts of object i.
fn put_parts(u: &mut [u64], x: &[u8], t: &[u64], base: u32, i: u16, o: Known)
    ensures { u.new ≡ rows_in u.old group_section (x_part base x.now (view_in t.now) i o ∷ y_part base x.now (view_in t.now) i o ∷ values_part base x.now (view_in t.now) i o ∷ []) }
{
    put_x(u, x, t, base, i, o);
    put_y(u, x, t, base, i, o);
    put_values_of(u, x, t, base, i, o);
}

// The groups of all objects.
pub fn put_groups(u: &mut [u64], image: &[u8], base: u32, x: &[u8], t: &[u64])
    ensures { u.new ≡ rows_in u.old group_section (groups_below image.now base x.now (view_in t.now) ((view_in t.now).counts object)) }
{
    for i in 0..count_of(t, OBJECT) {
        let o = known_of(image, base, x, t, i);
        put_parts(u, x, t, base, i, o);
    }
}
