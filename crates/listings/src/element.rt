// One element of the kept list: its line, and what is tested before.
ghost use Rattle.std.specs.Prelude.{◌≡◌, ◌+◌, ◌≤◌, ◌<◌, ◌^◌, length};
ghost use Rattle.tables.specs.Form.{tables_in};
ghost use Rattle.number.specs.Below.{sum_below};
ghost use Rattle.tables.specs.Group.{elements};
ghost use Rattle.look.specs.Calls.{kept};
ghost use Rattle.look.specs.Refused.{number_of};
ghost use Rattle.print.specs.Put.{Put};
ghost use Rattle.listing.specs.Listing.{columns, kept_no, printed_line, listed_by, if_fits, listed_of, printing};

use listing::line::put_line;
use look::check::{check, group_of, is_element};
use look::refusal::CallRefusal;
use look::room::{is_enough, room_of};
use tables::form::{OBJECT, PARTS, slot_of};
use tables::group::elements_of;

// Puts the line of element i of group g, which is line k of the list.
pub(crate) fn put_element(
    out: &mut [u8],
    at: usize,
    x: &[u8],
    t: &[u64],
    raw: &[i64],
    state: &[u8],
    first: &[i64],
    second: &[i64],
    g: u16,
    i: u32,
    k: usize,
) -> usize
    requires { (at < 2 ^ 55) × (length x.now ≤ 2 ^ 24) }
    ensures { Put at (printed_line x.now t.now (columns raw.now state.now first.now second.now) g i k) out.old result out.new × (result ≤ at + 2 ^ 26) }
{
    let object = g / PARTS;
    let a = slot_of(t, OBJECT, object, 0) as usize;
    let e = slot_of(t, OBJECT, object, 1) as usize;
    let part = (g % PARTS) as u8;
    let z = raw.get(k).copied().unwrap_or(0);
    let s = state.get(k).copied().unwrap_or(0);
    let n = first.get(k).copied().unwrap_or(0);
    let d = second.get(k).copied().unwrap_or(0);
    put_line(out, at, x, a, e, part, i, z, s, n, d)
}

// What every call on a kept list tests first: 20, 22.
pub fn check_list(
    x: &[u8],
    image: &[u8],
    base: u32,
    t: &[u64],
    raw: &[i64],
    state: &[u8],
    first: &[i64],
    second: &[i64],
) -> Result<(), CallRefusal>
    ensures { number_of result ≡ kept_no (length x.now) t.now base (kept image.now raw.now state.now first.now second.now) }
{
    let lines = room_of(raw.len(), state.len(), first.len(), second.len());
    check(x.len(), image.len(), base, t, is_enough(t, lines))
}

// How many lines stand before group g's.
fn lines_before(t: &[u64], g: u16) -> usize
    ensures { (result ≡ sum_below g (elements (tables_in t.now))) × (result ≤ 2 ^ 50) }
{
    let mut sum: usize = 0;
    for h in 0..g {
        sum += elements_of(t, h) as usize;
    }
    sum
}

// Writes the line of element i of group g, line k of the list, where there is room for it.
fn write_element(
    x: &[u8],
    t: &[u64],
    raw: &[i64],
    state: &[u8],
    first: &[i64],
    second: &[i64],
    g: u16,
    i: u32,
    k: usize,
    out: &mut [u8],
) -> Result<usize, CallRefusal>
    requires { length x.now ≤ 2 ^ 24 }
    ensures { listed_of result out.new ≡ listed_by (if_fits (printed_line x.now t.now (columns raw.now state.now first.now second.now) g i k) out.old) out.old }
{
    let mut nothing = [0u8; 1];
    let need = put_element(&mut nothing, 0, x, t, raw, state, first, second, g, i, k);
    if out.len() < need {
        return Err(CallRefusal::BadSize);
    }
    Ok(put_element(out, 0, x, t, raw, state, first, second, g, i, k))
}

// Writes the line of one element of a kept list. It is measured first, into a buffer that holds next to none of it.
pub fn line(
    x: &[u8],
    image: &[u8],
    base: u32,
    t: &[u64],
    object: u32,
    part: u8,
    index: u32,
    raw: &[i64],
    state: &[u8],
    first: &[i64],
    second: &[i64],
    out: &mut [u8],
) -> Result<usize, CallRefusal>
    ensures { listed_of result out.new
        ≡ printing x.now t.now base (kept image.now raw.now state.now first.now second.now) object part index out.old }
{
    check_list(x, image, base, t, raw, state, first, second)?;
    if !is_element(t, object, part, index) {
        return Err(CallRefusal::NoElement);
    }
    let g = group_of(object, part);
    let k = lines_before(t, g) + (index as usize);
    write_element(x, t, raw, state, first, second, g, index, k, out)
}
