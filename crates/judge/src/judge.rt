// The judgement of one object: its layout, its counts, its share of the element total, its elements' bytes.
ghost use Rattle.std.specs.Prelude.{◌≡◌, cond, ◌*◌, ◌≤◌, ◌^◌};
ghost use Rattle.place.specs.Judge.{bytes_of, elements_stored, all_inside, weighed, judged_object};
ghost use Rattle.place.specs.Told.{told_judged};

use crate::inside::is_inside;
use crate::walk::place_parts;
use cell::kind::shape_of;
use place::judge::Standing;
use place::order::{Entry, Layout};
use place::refusal::PlaceRefusal;
use place::rules::Need;
use place::walk::{Ground, Places};

// The most elements of all objects.
pub const ELEMENTS: u64 = 4096;

// How many bytes so many elements of a part take.
fn bytes_of(e: Entry, count: u64) -> u64
    requires { count ≤ 2 ^ 32 }
    ensures { result ≡ bytes_of e count }
{
    let w = shape_of(e.kind).bytes as u64;
    w * count
}

// A number where a part is stored, else 0.
fn if_stored(stored: bool, n: u64) -> u64
    ensures { (result ≡ cond stored n 0) × (result ≤ n) }
{
    if stored {
        return n;
    }
    0
}

// How many elements an object has of its own.
fn elements_of(n: Need, p: Places) -> u64
    ensures { (result ≡ elements_stored n p) × (result ≤ 2 ^ 33) }
{
    let x = p.cx as u64;
    let y = p.cy as u64;
    let v = x * y;
    let a = if_stored(n.x.stored, x);
    let b = if_stored(n.y.stored, y);
    let c = if_stored(n.values, v);
    a + b + c
}

// Whether every element's bytes lie inside the image.
fn are_inside(image: &[u8], base: u32, n: Need, l: Layout, p: Places) -> bool
    ensures { result ≡ all_inside image.now base n l p }
{
    let x = p.cx as u64;
    let y = p.cy as u64;
    let a = is_inside(image, base, p.x, bytes_of(l.x, x));
    let b = is_inside(image, base, p.y, bytes_of(l.y, y));
    let c = is_inside(image, base, p.values, bytes_of(l.values, x * y));
    (!n.x.stored | a) & (!n.y.stored | b) & (!n.values | c)
}

// An object whose parts are placed, after others with so many elements.
fn weigh(
    image: &[u8],
    base: u32,
    n: Need,
    l: Layout,
    used: u32,
    p: Places,
) -> Result<Standing, PlaceRefusal>
    ensures { told_judged result ≡ weighed image.now base n l used p }
{
    let total = (used as u64) + elements_of(n, p);
    if ELEMENTS < total {
        return Err(PlaceRefusal::OverCapacity);
    }
    if are_inside(image, base, n, l, p) {
        return Ok(Standing { places: p, total });
    }
    Err(PlaceRefusal::OutsideImage)
}

// The judgement of an object, after others with so many elements: where it stands, or its refusal.
pub fn judge_object(
    image: &[u8],
    g: Ground,
    n: Need,
    l: Layout,
    used: u32,
) -> Result<Standing, PlaceRefusal>
    ensures { told_judged result ≡ judged_object image.now g n l used }
{
    let s = place_parts(image, g, n, l)?;
    weigh(image, g.base, n, l, used, s.places)
}
