// One object: its mask, its judgement, where its parts stand.
ghost use Rattle.std.specs.Prelude.{◌≡◌, ◌||◌, eqb};
ghost use Rattle.cell.specs.Kind.{shape_of};
ghost use Rattle.cell.specs.Mask.{mask_rule};
ghost use Rattle.rows.specs.Sections.{object};
ghost use Rattle.rows.specs.Slots.{bit_mask_seen, bit_mask};
ghost use Rattle.grammar.specs.Move.{view_in};
ghost use Rattle.place.specs.Told.{told_judged};
ghost use Rattle.place.specs.Walk.{placement};
ghost use Rattle.objects.specs.Object.{judge_object, no_places, places_in};

use crate::basis::{Basis, basis_of};
use crate::need::need_of;
use cell::raw::keeps_mask_rule;
use grammar::view::{OBJECT, slot_of};
use judge::judge::judge_object;
use judge::walk::place_parts;
use place::judge::Standing;
use place::refusal::PlaceRefusal;
use place::rules::Need;
use place::walk::Places;
use rows::slots::{BIT_MASK, BIT_MASK_SEEN};

// Whether object i's mask keeps its rule, for values of a data type.
fn mask_fits(t: &[u64], i: u16, kind: u64) -> bool
    ensures { result ≡ (eqb ((view_in t.now).slots object i bit_mask_seen) 0 || mask_rule (shape_of kind) ((view_in t.now).slots object i bit_mask)) }
{
    let has = slot_of(t, OBJECT, i, BIT_MASK_SEEN);
    let mask = slot_of(t, OBJECT, i, BIT_MASK);
    let keeps = keeps_mask_rule(kind, mask);
    (has == 0) | keeps
}

// The judgement of object i, after others with so many elements.
pub fn judge_one(
    image: &[u8],
    base: u32,
    x: &[u8],
    t: &[u64],
    i: u16,
    used: u32,
) -> Result<Standing, PlaceRefusal>
    ensures { told_judged result ≡ judge_object image.now base x.now (view_in t.now) i used }
{
    let b = basis_of(x, t, base, i);
    let l = b.layout;
    let v = l.values;
    if mask_fits(t, i, v.kind) {
        let n = need_of(image, base, x, t, i);
        return judge_object(image, b.footing, n, l, used);
    }
    Err(PlaceRefusal::BreaksPlace)
}

// No places.
fn no_places() -> Places
    ensures { result ≡ no_places }
{
    Places {
        values: 0,
        x: 0,
        y: 0,
        nx: 0,
        ny: 0,
        cx: 0,
        cy: 0,
    }
}

// Where the parts of an object stand, by what it rests on and what it needs.
pub fn places_by(image: &[u8], b: Basis, n: Need) -> Places
    ensures { result ≡ places_in (placement b.footing n image.now b.layout) }
{
    match place_parts(image, b.footing, n, b.layout) {
        Ok(r) => r.places,
        Err(_) => no_places(),
    }
}
