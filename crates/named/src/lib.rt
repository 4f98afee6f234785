// The plain search: the first object that bears a name.
#![tactic(auto)]

ghost use Rattle.std.specs.Prelude.{◌≡◌, length, Ok};
ghost use Rattle.number.specs.Answer.{given};
ghost use Rattle.tables.specs.Form.{object_section, tables_in};
ghost use Rattle.look.specs.Calls.{lent_of, search_from, searched};
ghost use Rattle.look.specs.Told.{told_search};

use look::check::check;
use look::refusal::CallRefusal;
use tables::form::{OBJECT, count_of, slot_of};
use text::bytes::{byte_at, is_like, one_before};

// The first object that bears a name; names are compared from their last byte backward.
// No `for`: the search is left by label and yields the place by break, the form that docs/CLAIMS.md names for rule 9.11.
fn find(x: &[u8], t: &[u64], name: &[u8]) -> Option<u16>
    ensures { told_search (Ok result) ≡ given (search_from ((tables_in t.now).counts object_section) x.now (tables_in t.now) name.now 0) }
{
    let count = count_of(t, OBJECT);
    let n = name.len();
    let first = byte_at(name, 0);
    let last = byte_at(name, one_before(n));
    let mut i: u16 = 0;
    'objects: loop {
        if count <= i {
            break None;
        }
        let from = slot_of(t, OBJECT, i, 0) as usize;
        let to = slot_of(t, OBJECT, i, 1) as usize;
        if is_like(x, from, to, n, last) {
            let mut k = n;
            loop {
                if k == 0 {
                    break 'objects Some(i);
                }
                if byte_at(x, from) != first {
                    break;
                }
                k -= 1;
                if byte_at(x, from + k) != byte_at(name, k) {
                    break;
                }
            }
        }
        i += 1;
    }
}

// Searches for an object's number by its name.
pub fn search(
    x: &[u8],
    image: &[u8],
    base: u32,
    t: &[u64],
    name: &[u8],
) -> Result<Option<u16>, CallRefusal>
    ensures { told_search result ≡ searched x.now t.now (lent_of (length x.now) (length image.now) base) name.now }
{
    check(x.len(), image.len(), base, t, true)?;
    Ok(find(x, t, name))
}
