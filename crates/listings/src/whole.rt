// A whole listing: the header, and a line for each element of the kept list.
ghost use Rattle.std.specs.Prelude.{◌≡◌, ◌≤◌, ◌^◌, length};
ghost use Rattle.number.specs.Most.{most_elements};
ghost use Rattle.tables.specs.Form.{group_section, tables_in};
ghost use Rattle.number.specs.Below.{sum_below};
ghost use Rattle.tables.specs.Group.{elements};
ghost use Rattle.look.specs.Calls.{kept};
ghost use Rattle.print.specs.Put.{Put};
ghost use Rattle.listing.specs.Print.{header};
ghost use Rattle.listing.specs.Listing.{columns, printed_below, printed, listed_of, listing};

use crate::element::{check_list, put_element};
use look::refusal::CallRefusal;
use print::slice::put_slice;
use tables::form::{GROUP, count_of};
use tables::group::elements_of;

// How many bytes the header has.
const HEADER: usize = 29;

// Puts the lines of all elements. One loop over groups and elements, since the place in the columns goes on through all groups: two would
// need a function of twelve parameters between them, which is no plainer.
fn put_elements(
    out: &mut [u8],
    at: usize,
    x: &[u8],
    t: &[u64],
    raw: &[i64],
    state: &[u8],
    first: &[i64],
    second: &[i64],
) -> usize
    requires { (at ≤ 2 ^ 24) × (length x.now ≤ 2 ^ 24) × (sum_below ((tables_in t.now).counts group_section) (elements (tables_in t.now)) ≤ most_elements) }
    ensures { Put at (printed_below x.now t.now (columns raw.now state.now first.now second.now) ((tables_in t.now).counts group_section)) out.old result out.new }
{
    let groups = count_of(t, GROUP);
    let mut g: u16 = 0;
    let mut i: u32 = 0;
    let mut k: usize = 0;
    let mut p = at;
    while g < groups {
        if (i as u64) < elements_of(t, g) {
            p = put_element(out, p, x, t, raw, state, first, second, g, i, k);
            i += 1;
            k += 1;
        } else {
            g += 1;
            i = 0;
        }
    }
    p
}

// Puts the header.
fn put_header(out: &mut [u8]) -> usize
    ensures { Put 0 header out.old result out.new × (result ≤ 2 ^ 24) }
{
    put_slice(out, 0, b"name\tpart\tindex\traw\tphysical\n", 0, HEADER)
}

// Puts the whole listing into a buffer, and says how many bytes it has. What is past the buffer's end is stored nowhere.
fn put_listing(
    out: &mut [u8],
    x: &[u8],
    t: &[u64],
    raw: &[i64],
    state: &[u8],
    first: &[i64],
    second: &[i64],
) -> usize
    requires { (length x.now ≤ 2 ^ 24) × (sum_below ((tables_in t.now).counts group_section) (elements (tables_in t.now)) ≤ most_elements) }
    ensures { Put 0 (printed x.now t.now (columns raw.now state.now first.now second.now)) out.old result out.new }
{
    let e = put_header(out);
    put_elements(out, e, x, t, raw, state, first, second)
}

// Writes the whole listing of a kept list. It is measured first, into a buffer that holds next to none of it.
pub fn listing(
    x: &[u8],
    image: &[u8],
    base: u32,
    t: &[u64],
    raw: &[i64],
    state: &[u8],
    first: &[i64],
    second: &[i64],
    out: &mut [u8],
) -> Result<usize, CallRefusal>
    ensures { listed_of result out.new
        ≡ listing x.now t.now base (kept image.now raw.now state.now first.now second.now) out.old }
{
    check_list(x, image, base, t, raw, state, first, second)?;
    let mut nothing = [0u8; 1];
    let need = put_listing(&mut nothing, x, t, raw, state, first, second);
    if out.len() < need {
        return Err(CallRefusal::BadSize);
    }
    Ok(put_listing(out, x, t, raw, state, first, second))
}
