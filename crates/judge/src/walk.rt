// Where each part of an object stands, part after part in order of Position.
ghost use Rattle.std.specs.Prelude.{◌≡◌, true, ◌+◌, ◌*◌, ◌^◌, ◌≤◌, ◌<◌};
ghost use Rattle.number.specs.Answer.{given};
ghost use Rattle.place.specs.Order.{parts, in_order};
ghost use Rattle.place.specs.Told.{told_count, told_placed};
ghost use Rattle.place.specs.Walk.{start_of, within, points_of, count_stored, count_at, place_one, step, all_placed, start, placement, free_of};

use crate::align::{align_of, align_up};
use crate::inside::is_inside;
use cell::kind::shape_of;
use cell::raw::read_raw;
use place::order::{Layout, Part, Role, in_order};
use place::refusal::PlaceRefusal;
use place::rules::{Axis, Need, is_sound};
use place::walk::{Ground, Places, Reached};

// Whether an axis that is not stored has no more points than it may.
fn is_within(a: Axis) -> bool
    ensures { result ≡ within a }
{
    a.stored | (a.points <= a.most)
}

// How many points an axis has where no count is stored.
fn points_of(a: Axis) -> u16
    ensures { result ≡ points_of a }
{
    if a.stored {
        return a.most;
    }
    a.points
}

// A stored count is 1 to its maximum.
fn count_in(most: u16, raw: i64) -> Result<u16, PlaceRefusal>
    ensures { told_count result ≡ count_stored most raw }
{
    if raw < 1 {
        return Err(PlaceRefusal::CountOutOfRange);
    }
    let n = raw.unsigned_abs();
    if (most as u64) < n {
        return Err(PlaceRefusal::CountOutOfRange);
    }
    Ok(n as u16)
}

// The stored count at an address.
fn count_at(image: &[u8], g: Ground, kind: u64, at: u64, most: u16) -> Result<u16, PlaceRefusal>
    ensures { told_count result ≡ count_at image.now g kind at most }
{
    let t = shape_of(kind);
    if is_inside(image, g.base, at, t.bytes as u64) {
        let place = at - (g.base as u64);
        let raw = read_raw(image, place as usize, kind, g.first, 0);
        return count_in(most, raw);
    }
    Err(PlaceRefusal::OutsideImage)
}

// Where a part of an alignment starts.
fn start_of(align: u8, s: Reached) -> u64
    requires { s.free < 2 ^ 62 }
    ensures { (result ≡ start_of align s) × (result ≤ s.free + 255) }
{
    if s.any {
        return align_up(align, s.free);
    }
    s.free
}

// How far the parts reach once so many elements stand at an address.
fn reached(at: u64, bytes: usize, count: u32, places: Places) -> Reached
    requires { (at < 2 ^ 63) × (bytes ≤ 4) }
    ensures { (result ≡ record { free = at + bytes * count; any = true; places = places }) × (result.free ≤ at + 2 ^ 34) }
{
    let w = bytes as u64;
    let n = count as u64;
    Reached {
        free: at + w * n,
        any: true,
        places,
    }
}

// One part that the layout has, after those before it.
fn place_one(image: &[u8], g: Ground, n: Need, s: Reached, p: Part) -> Result<Reached, PlaceRefusal>
    requires { s.free < 2 ^ 62 }
    ensures { (told_placed result ≡ place_one g n image.now s p) × (free_of (told_placed result) ≤ s.free + 2 ^ 35) }
{
    let kind = p.entry.kind;
    let t = shape_of(kind);
    let at = start_of(align_of(g.aligns, t), s);
    let q = s.places;
    let x = q.cx as u32;
    let y = q.cy as u32;
    match p.role {
        Role::Values => Ok(reached(at, t.bytes, x * y, Places { values: at, ..q })),
        Role::PointsX => Ok(reached(at, t.bytes, x, Places { x: at, ..q })),
        Role::PointsY => Ok(reached(at, t.bytes, y, Places { y: at, ..q })),
        Role::CountX => {
            let cx = count_at(image, g, kind, at, n.x.most)?;
            Ok(reached(at, t.bytes, 1, Places { nx: at, cx, ..q }))
        }
        Role::CountY => {
            let cy = count_at(image, g, kind, at, n.y.most)?;
            Ok(reached(at, t.bytes, 1, Places { ny: at, cy, ..q }))
        }
    }
}

// The next part, where the layout has it.
fn place_next(
    image: &[u8],
    g: Ground,
    n: Need,
    s: Reached,
    p: Part,
) -> Result<Reached, PlaceRefusal>
    requires { s.free < 2 ^ 62 }
    ensures { (told_placed result ≡ step g n image.now (given s) p) × (free_of (told_placed result) ≤ s.free + 2 ^ 35) }
{
    if p.entry.present {
        return place_one(image, g, n, s, p);
    }
    Ok(s)
}

// Before any part: the object's address, and the points where no count is stored.
fn started(g: Ground, n: Need) -> Reached
    ensures { (result ≡ start g n) × (result.free < 2 ^ 32) }
{
    let cx = points_of(n.x);
    let cy = points_of(n.y);
    Reached {
        free: g.address as u64,
        any: false,
        places: Places {
            values: 0,
            x: 0,
            y: 0,
            nx: 0,
            ny: 0,
            cx,
            cy,
        },
    }
}

// The five parts put in order of Position and placed.
fn place_sorted(image: &[u8], g: Ground, n: Need, l: Layout) -> Result<Reached, PlaceRefusal>
    ensures { told_placed result ≡ all_placed g n image.now (given (start g n)) (in_order (parts l)) }
{
    let mut s = started(g, n);
    for p in in_order(l) {
        s = place_next(image, g, n, s, p)?;
    }
    Ok(s)
}

// Each part in order of Position; a layout's only part, its values or its x points, stands at the object's address.
fn place_in_order(image: &[u8], g: Ground, n: Need, l: Layout) -> Result<Reached, PlaceRefusal>
    ensures { told_placed result ≡ all_placed g n image.now (given (start g n)) (in_order (parts l)) }
{
    let v = l.values;
    let x = l.x;
    if (v.present & x.present) | l.y.present | l.nx.present | l.ny.present {
        return place_sorted(image, g, n, l);
    }
    let s = started(g, n);
    if v.present {
        let p = Part {
            role: Role::Values,
            entry: v,
        };
        return place_one(image, g, n, s, p);
    }
    let p = Part {
        role: Role::PointsX,
        entry: x,
    };
    place_next(image, g, n, s, p)
}

// Where each part of an object stands: its layout judged, then its counts.
pub fn place_parts(image: &[u8], g: Ground, n: Need, l: Layout) -> Result<Reached, PlaceRefusal>
    ensures { told_placed result ≡ placement g n image.now l }
{
    if is_sound(n, l) {
        if is_within(n.x) & is_within(n.y) {
            return place_in_order(image, g, n, l);
        }
        return Err(PlaceRefusal::CountOutOfRange);
    }
    Err(PlaceRefusal::BreaksPlace)
}
