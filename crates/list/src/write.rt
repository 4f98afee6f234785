// Writes: judged in full, and then stored or refused.
ghost use Rattle.std.specs.Prelude.{◌≡◌, ◌≤◌, ℕ, length};
ghost use Rattle.tables.specs.Form.{tables_in};
ghost use Rattle.number.specs.Below.{sum_below};
ghost use Rattle.tables.specs.Group.{elements};
ghost use Rattle.look.specs.Calls.{kept, room, groups, raw_number, physical_text, request, afterwards, written_to, writing};
ghost use Rattle.look.specs.Told.{after, after_by, told_by};

use crate::store::store;
use look::check::group_of;
use look::refusal::CallRefusal;
use look::room::{is_enough, room_of};
use wanted::stand::judge;
use wanted::wanted::{raw_asked, raw_wanted};

// Carries out what is wanted of an element, where there is a raw number for it; a refusal of any kind stays as it is.
pub fn carry_out<R>(
    t: &[u64],
    image: &mut [u8],
    raw: &mut [i64],
    state: &mut [u8],
    first: &mut [i64],
    second: &mut [i64],
    g: u16,
    i: u32,
    answer: Result<i64, R>,
) -> Result<(), R>
    requires { sum_below (groups t.now) (elements (tables_in t.now)) ≤ room (kept image.old raw.old state.old first.old second.old) }
    ensures { (tell : R → ℕ) → after_by tell result (kept image.new raw.new state.new first.new second.new)
        ≡ afterwards (told_by tell answer) (kept image.old raw.old state.old first.old second.old)
        (written_to t.now g i (kept image.old raw.old state.old first.old second.old)) }
{
    let z = answer?;
    store(t, image, raw, state, first, second, g, i, z);
    Ok(())
}

// Writes a raw number to an element, named by object number, part and index.
pub fn write_raw(
    x: &[u8],
    image: &mut [u8],
    base: u32,
    t: &[u64],
    raw: &mut [i64],
    state: &mut [u8],
    first: &mut [i64],
    second: &mut [i64],
    object: u32,
    part: u8,
    index: u32,
    value: i64,
) -> Result<(), CallRefusal>
    ensures { after result (kept image.new raw.new state.new first.new second.new)
        ≡ writing t.now (length x.now) base (kept image.old raw.old state.old first.old second.old)
        (request object part index (raw_number value)) }
{
    let lines = room_of(raw.len(), state.len(), first.len(), second.len());
    let enough = is_enough(t, lines);
    judge(x.len(), image.len(), base, t, enough, object, part, index)?;
    let g = group_of(object, part);
    let wanted = raw_wanted(t, g, value);
    Ok(carry_out(t, image, raw, state, first, second, g, index, wanted)?)
}

// Writes a physical value, given as a decimal in text, to an element.
pub fn write_physical(
    x: &[u8],
    image: &mut [u8],
    base: u32,
    t: &[u64],
    raw: &mut [i64],
    state: &mut [u8],
    first: &mut [i64],
    second: &mut [i64],
    object: u32,
    part: u8,
    index: u32,
    asked: &[u8],
) -> Result<(), CallRefusal>
    ensures { after result (kept image.new raw.new state.new first.new second.new)
        ≡ writing t.now (length x.now) base (kept image.old raw.old state.old first.old second.old)
        (request object part index (physical_text asked.now)) }
{
    let lines = room_of(raw.len(), state.len(), first.len(), second.len());
    let enough = is_enough(t, lines);
    judge(x.len(), image.len(), base, t, enough, object, part, index)?;
    let g = group_of(object, part);
    let answer = raw_asked(t, g, asked);
    Ok(carry_out(t, image, raw, state, first, second, g, index, answer)?)
}
