// One part of an object: where it stands, and what its numbers mean.
ghost use Rattle.std.specs.Prelude.{◌≡◌, false, [], ◌∷◌, ◌++◌};
ghost use Rattle.number.specs.Told.{scaled};
ghost use Rattle.grammar.specs.Move.{view_in};
ghost use Rattle.grammar.specs.Parameter.{found_at};
ghost use Rattle.tables.specs.Form.{group_section, kind_cell, method_cell, lower_cell, counter_cell};
ghost use Rattle.build.specs.Build.{method_number, method_in, forbids, decimal_cells, limit_cells, meaning, standing_cells, counter_cells, no_part_cells};
ghost use Rattle.build.specs.Row.{puts_at, row_in};

use crate::row::{open_row, put_numbers, put_row};
use grammar::names::find;
use grammar::view::{METHOD, decimal_slots, slot_of};
use number::decimal::Decimal;
use place::order::{Entry, Layout};
use place::rules::Need;
use place::walk::Places;
use tables::form::GROUP;
use text::bytes::same_part;

// Where a part's conversion, limits and READ_ONLY stand: section, record, slots.
#[derive(Clone, Copy)]
pub struct Source {
    pub sec: u8,
    pub number: u16,
    pub conversion: u8,
    pub lower: u8,
    pub upper: u8,
    pub only: u8,
}

// What is known of an object: what it needs, its layout, where its parts stand, its byte order, its layout's number.
#[derive(Clone, Copy)]
pub struct Known {
    pub need: Need,
    pub layout: Layout,
    pub places: Places,
    pub first: bool,
    pub number: u16,
}

// Where a part stands: data type, byte order, place in the image, points in x and y, walk.
#[derive(Clone, Copy)]
pub struct Spot {
    pub kind: u64,
    pub first: bool,
    pub place: u64,
    pub cx: u16,
    pub cy: u16,
    pub walk: u64,
}

// The number of what was found and one more, 0 where nothing was.
pub fn number_of(f: Option<u16>) -> u64
    ensures { result ≡ found_at f }
{
    f.map_or(0, |i| u64::from(i) + 1)
}

// The number of the method that the name from a up to e leads to.
fn method_number(x: &[u8], t: &[u64], a: usize, e: usize) -> u64
    ensures { result ≡ method_number x.now (view_in t.now) a e }
{
    if same_part(x, a, e, b"NO_COMPU_METHOD", 0, 15) {
        return 0;
    }
    number_of(find(x, t, METHOD, a, e))
}

// The number of a source's method.
fn method_in(x: &[u8], t: &[u64], s: Source) -> u64
    ensures { result ≡ method_in x.now (view_in t.now) s }
{
    let k = s.conversion as u16;
    let a = slot_of(t, s.sec, s.number, k) as usize;
    let e = slot_of(t, s.sec, s.number, k + 1) as usize;
    method_number(x, t, a, e)
}

// Whether writing is forbidden, as a number.
fn forbids_in(t: &[u64], s: Source, forbidden: bool) -> u64
    ensures { result ≡ forbids (view_in t.now) s forbidden }
{
    let only = slot_of(t, s.sec, s.number, s.only as u16);
    u64::from(forbidden | (only != 0))
}

// A decimal's three numbers into group g from slot k on.
fn put_decimal(u: &mut [u64], g: u16, k: u8, d: Decimal)
    ensures { u.new ≡ puts_at u.old group_section g k (decimal_cells (scaled d)) }
{
    let numbers = [u64::from(d.negative), d.whole, u64::from(d.tens)];
    put_numbers(u, GROUP, g, k, &numbers);
}

// A source's limits.
fn put_limits(u: &mut [u64], t: &[u64], g: u16, s: Source)
    ensures { u.new ≡ puts_at u.old group_section g lower_cell (limit_cells (view_in t.now) s) }
{
    let lower = decimal_slots(t, s.sec, s.number, s.lower);
    let upper = decimal_slots(t, s.sec, s.number, s.upper);
    put_decimal(u, g, 11, lower);
    put_decimal(u, g, 14, upper);
}

// Method, mask, writing forbidden, and limits.
fn put_meaning(u: &mut [u64], x: &[u8], t: &[u64], g: u16, s: Source, mask: u64, forbidden: bool)
    ensures { u.new ≡ puts_at u.old group_section g method_cell (meaning x.now (view_in t.now) s mask forbidden) }
{
    let method = method_in(x, t, s);
    let only = forbids_in(t, s, forbidden);
    put_numbers(u, GROUP, g, 8, &[method, mask, only]);
    put_limits(u, t, g, s);
}

// Where a part stands.
fn put_standing(u: &mut [u64], g: u16, p: Spot)
    ensures { u.new ≡ puts_at u.old group_section g kind_cell (standing_cells p.kind p.first p.place p.cx p.cy p.walk) }
{
    let first = u64::from(p.first);
    let cx = u64::from(p.cx);
    let cy = u64::from(p.cy);
    put_numbers(
        u,
        GROUP,
        g,
        0,
        &[p.kind, first, p.place, cx, cy, cx, cy, p.walk],
    );
}

// A stored count's data type and place.
fn put_counter(u: &mut [u64], g: u16, e: Entry, place: u64)
    ensures { u.new ≡ puts_at u.old group_section g counter_cell (counter_cells e place) }
{
    if e.present {
        put_numbers(u, GROUP, g, 17, &[e.kind, place]);
    } else {
        put_numbers(u, GROUP, g, 17, &[0, 0]);
    }
}

// A part that the object does not store.
pub fn put_none(u: &mut [u64])
    ensures { u.new ≡ row_in u.old group_section no_part_cells }
{
    put_row(u, GROUP, &[0; 19]);
}

// An axis that the object stores.
pub fn put_axis(u: &mut [u64], x: &[u8], t: &[u64], p: Spot, s: Source, e: Entry, place: u64)
    ensures { u.new ≡ row_in u.old group_section (standing_cells p.kind p.first p.place p.cx p.cy p.walk ++ (meaning x.now (view_in t.now) s 0 false ++ counter_cells e place)) }
{
    let g = open_row(u, GROUP);
    put_standing(u, g, p);
    put_meaning(u, x, t, g, s, 0, false);
    put_counter(u, g, e, place);
}

// Values that the object stores.
pub fn put_values(
    u: &mut [u64],
    x: &[u8],
    t: &[u64],
    p: Spot,
    s: Source,
    mask: u64,
    forbidden: bool,
)
    ensures { u.new ≡ row_in u.old group_section (standing_cells p.kind p.first p.place p.cx p.cy p.walk ++ (meaning x.now (view_in t.now) s mask forbidden ++ (0 ∷ 0 ∷ []))) }
{
    let g = open_row(u, GROUP);
    put_standing(u, g, p);
    put_meaning(u, x, t, g, s, mask, forbidden);
    put_numbers(u, GROUP, g, 17, &[0, 0]);
}
