// The last stage of a load: each object judged at its first turn.
#![tactic(auto)]

ghost use Rattle.std.specs.Prelude.{◌≡◌, [], ◌∷◌, ◌++◌, eqb, get_or, set};
ghost use Rattle.rows.specs.Sections.{object};
ghost use Rattle.rows.specs.Slots.{own_name};
ghost use Rattle.grammar.specs.Move.{view_in};
ghost use Rattle.objects.specs.Object.{judge_object};
ghost use Rattle.objects.specs.Stage.{names, named, turns_of, turns_from, marked, total_or, turn, judge_each, judge_all, told_turn, Goes};

use grammar::view::{AXIS, OBJECT, count_of, slot_of};
use objects::need::{axis_at, shared_by};
use objects::object::judge_one;
use rows::slots::{AXIS_ATTRIBUTE, AXIS_DESCR_SEEN, OWN_NAME};
use text::cursor::Refusal;
use words::codes::COM_AXIS;

// Whether object i is still to be judged.
fn is_open(seen: &[u8], i: u16) -> bool
    ensures { result ≡ eqb (get_or seen.now i 0) 0 }
{
    seen.get(i as usize).copied().unwrap_or(0) == 0
}

// Object i counts as judged. (With get_mut the proof didn't close: what it lends could be told only by the prover's own names.)
fn mark(seen: &mut [u8], i: u16)
    ensures { seen.new ≡ set seen.old i 1 }
{
    let k = i as usize;
    if k < seen.len() {
        seen[k] = 1;
    }
}

// The judgement of object i with its place.
fn weigh(image: &[u8], base: u32, x: &[u8], t: &[u64], i: u16, used: u32) -> Result<u32, Refusal>
    ensures { told_turn result ≡ total_or ((view_in t.now).slots object i own_name) (judge_object image.now base x.now (view_in t.now) i used) }
{
    match judge_one(image, base, x, t, i, used) {
        Ok(s) => Ok(s.total as u32),
        Err(r) => Err(Refusal {
            no: r.number(),
            place: slot_of(t, OBJECT, i, OWN_NAME) as usize,
        }),
    }
}

// Object i's turn: it is judged where it was not yet.
fn take_turn(
    image: &[u8],
    base: u32,
    x: &[u8],
    t: &[u64],
    seen: &mut [u8],
    i: u16,
    used: u32,
) -> Result<u32, Refusal>
    ensures { (told_turn result ≡ turn image.now base x.now (view_in t.now) seen.old i used) × (seen.new ≡ marked seen.old i) }
{
    if is_open(seen, i) {
        mark(seen, i);
        return weigh(image, base, x, t, i, used);
    }
    Ok(used)
}

// Whether AXIS_DESCR k of object i is there and names an AXIS_PTS.
fn is_naming(t: &[u64], i: u16, k: u8) -> bool
    ensures { result ≡ names (view_in t.now) i k }
{
    let many = slot_of(t, OBJECT, i, AXIS_DESCR_SEEN);
    let a = axis_at(t, i, k);
    let kind = slot_of(t, AXIS, a, AXIS_ATTRIBUTE);
    ((k as u64) < many) & (kind == (COM_AXIS as u64))
}

// The turn of the AXIS_PTS that AXIS_DESCR k of object i names, where it names one.
fn take_named(
    image: &[u8],
    base: u32,
    x: &[u8],
    t: &[u64],
    seen: &mut [u8],
    i: u16,
    k: u8,
    used: u32,
) -> Result<u32, Refusal>
    ensures { Goes image.now base x.now (view_in t.now) seen.old (named x.now (view_in t.now) i k) used (told_turn result) seen.new }
{
    if is_naming(t, i, k) {
        let a = axis_at(t, i, k);
        let s = shared_by(x, t, a);
        return take_turn(image, base, x, t, seen, s, used);
    }
    Ok(used)
}

// The turns of the y axis and of object i itself.
fn take_later(
    image: &[u8],
    base: u32,
    x: &[u8],
    t: &[u64],
    seen: &mut [u8],
    i: u16,
    used: u32,
) -> Result<u32, Refusal>
    ensures { Goes image.now base x.now (view_in t.now) seen.old (named x.now (view_in t.now) i 1 ++ (i ∷ [])) used (told_turn result) seen.new }
{
    let n = take_named(image, base, x, t, seen, i, 1, used)?;
    take_turn(image, base, x, t, seen, i, n)
}

// The turns of object i: those that it names, x's and then y's, and itself.
fn take_turns(
    image: &[u8],
    base: u32,
    x: &[u8],
    t: &[u64],
    seen: &mut [u8],
    i: u16,
    used: u32,
) -> Result<u32, Refusal>
    ensures { Goes image.now base x.now (view_in t.now) seen.old (turns_of x.now (view_in t.now) i) used (told_turn result) seen.new }
{
    let n = take_named(image, base, x, t, seen, i, 0, used)?;
    take_later(image, base, x, t, seen, i, n)
}

// Judges every object, where those that were judged are marked.
fn judge_each(image: &[u8], base: u32, x: &[u8], t: &[u64], seen: &mut [u8]) -> Result<u32, Refusal>
    ensures { told_turn result ≡ judge_each image.now base x.now (view_in t.now) seen.old (turns_from ((view_in t.now).counts object) x.now (view_in t.now) 0) 0 }
{
    let mut used = 0;
    for i in 0..count_of(t, OBJECT) {
        used = take_turns(image, base, x, t, seen, i, used)?;
    }
    Ok(used)
}

// Judges every object of the records.
pub fn judge_all(image: &[u8], base: u32, x: &[u8], t: &[u64]) -> Result<u32, Refusal>
    ensures { told_turn result ≡ judge_all image.now base x.now (view_in t.now) }
{
    let mut seen = [0u8; 512];
    judge_each(image, base, x, t, &mut seen)
}
