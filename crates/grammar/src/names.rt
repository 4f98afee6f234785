// The search for a name among the records of a section.
ghost use Rattle.std.specs.Prelude.{◌≡◌};
ghost use Rattle.grammar.specs.Move.{view_in};
ghost use Rattle.grammar.specs.Parameter.{find, found_at};

use crate::view::section_of;
use records::get;
use text::bytes::{byte_at, is_like, one_before};

// The first record of section j whose name is the bytes from a up to e, compared from the last byte backward.
// A record's first two cells, at and at + 1, are its name's first byte and the place past it (OWN_NAME, OWN_NAME_PAST).
// No `for`: the search is a loop that is left by label and yields the place by break, the form that docs/CLAIMS.md names for rule 9.11.
pub fn find(x: &[u8], t: &[u64], j: u8, a: usize, e: usize) -> Option<u16>
    ensures { found_at result ≡ find x.now (view_in t.now) j a e }
{
    if e < a {
        return None;
    }
    let c = section_of(j);
    let count = records::count(t, c);
    let n = e - a;
    let first = byte_at(x, a);
    let last = byte_at(x, one_before(e));
    let mut i: u16 = 0;
    let mut at = (c.base as usize) + 1;
    'records: loop {
        if count <= i {
            break None;
        }
        let from = get(t, at) as usize;
        let to = get(t, at + 1) as usize;
        if is_like(x, from, to, n, last) {
            let mut k = n;
            loop {
                if k == 0 {
                    break 'records Some(i);
                }
                if byte_at(x, from) != first {
                    break;
                }
                k -= 1;
                if byte_at(x, from + k) != byte_at(x, a + k) {
                    break;
                }
            }
        }
        at += c.width as usize;
        i += 1;
    }
}
