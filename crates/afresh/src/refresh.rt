// The lines of the list, worked out afresh.
ghost use Rattle.std.specs.Prelude.{◌≡◌, true, false, ◌||◌, ℕ, ◌+◌, ◌*◌, ◌≤◌, ◌<◌, set};
ghost use Rattle.cell.specs.Kind.{shape_of};
ghost use Rattle.tables.specs.Form.{tables_in};
ghost use Rattle.number.specs.Below.{sum_below};
ghost use Rattle.tables.specs.Group.{elements, storage_of, IsModest, IsReachable, place_by};
ghost use Rattle.look.specs.Element.{line_of, shares};
ghost use Rattle.look.specs.Calls.{kept, room, groups, refreshed};
ghost use Rattle.look.specs.Steps.{picked, put_line, put_lines, meaning_of};

use crate::apart::{has_byte, lies_apart};
use look::element::Line;
use look::meaning::{Meaning, line_by, meaning_of};
use tables::form::{GROUP, count_of};
use tables::group::{Storage, elements_of, storage_of};

// Stores a value in a lent slice; nothing past its end. (With get_mut the proof didn't close, as in records::set.)
pub fn put<T: Copy>(column: &mut [T], k: usize, v: T)
    ensures { column.new ≡ set column.old k v }
{
    if k < column.len() {
        column[k] = v;
    }
}

// Stores a line in the four columns.
fn put_line(
    raw: &mut [i64],
    state: &mut [u8],
    first: &mut [i64],
    second: &mut [i64],
    k: usize,
    line: Line,
)
    ensures { (raw.new ≡ set raw.old k line.raw) × (state.new ≡ set state.old k line.state)
        × (first.new ≡ set first.old k line.first) × (second.new ≡ set second.old k line.second) }
{
    put(raw, k, line.raw);
    put(state, k, line.state);
    put(first, k, line.first);
    put(second, k, line.second);
}

// One line: worked out afresh where all are, or where its element has one of so many bytes from lo on; else left.
fn refresh_line(
    t: &[u64],
    image: &[u8],
    raw: &mut [i64],
    state: &mut [u8],
    first: &mut [i64],
    second: &mut [i64],
    all: bool,
    lo: u64,
    many: u64,
    s: Storage,
    m: Meaning,
    i: u64,
    k: usize,
)
    requires { IsReachable s i }
    ensures { (g : ℕ) → s ≡ storage_of (tables_in t.now) g → m ≡ meaning_of t.now g
        → kept image.now raw.new state.new first.new second.new
        ≡ put_line (picked t.now lo (lo + many) all g i) k (line_of (tables_in t.now) image.now g i)
        (kept image.now raw.old state.old first.old second.old) }
{
    if all | has_byte(s, lo, many, i) {
        let line = line_by(t, image, s, m, i);
        put_line(raw, state, first, second, k, line);
    }
}

// Whether a group is passed as a whole: not all lines are worked out afresh, and its bytes lie apart.
fn passes(all: bool, s: Storage, lo: u64, many: u64) -> bool
    requires { IsModest s }
    ensures { result ≡ true → (i : ℕ) → i < s.x * s.y → (all || shares lo (lo + many) (place_by s i) (shape_of s.kind).bytes) ≡ false }
{
    !all && lies_apart(s, lo, many)
}

// The n lines of group g, the first of them line k.
fn refresh_group(
    t: &[u64],
    image: &[u8],
    raw: &mut [i64],
    state: &mut [u8],
    first: &mut [i64],
    second: &mut [i64],
    all: bool,
    lo: u64,
    many: u64,
    g: u16,
    n: u64,
    k: usize,
)
    requires n_value { n ≡ elements (tables_in t.now) g }
    requires n_bound { k + n ≤ room (kept image.now raw.old state.old first.old second.old) }
    ensures { kept image.now raw.new state.new first.new second.new
        ≡ put_lines (picked t.now lo (lo + many) all) t.now image.now g k n
        (kept image.now raw.old state.old first.old second.old) }
{
    if n == 0 {
        return;
    }
    let s = storage_of(t, g);
    if passes(all, s, lo, many) {
        return;
    }
    let m = meaning_of(t, g);
    for i in 0..n {
        refresh_line(
            t,
            image,
            raw,
            state,
            first,
            second,
            all,
            lo,
            many,
            s,
            m,
            i,
            k + (i as usize),
        );
    }
}

// Every line, or every line whose element has one of so many bytes from lo on, is worked out afresh.
pub fn refresh(
    t: &[u64],
    image: &[u8],
    raw: &mut [i64],
    state: &mut [u8],
    first: &mut [i64],
    second: &mut [i64],
    all: bool,
    lo: u64,
    many: u64,
)
    requires { sum_below (groups t.now) (elements (tables_in t.now)) ≤ room (kept image.now raw.old state.old first.old second.old) }
    ensures { kept image.now raw.new state.new first.new second.new
        ≡ refreshed (picked t.now lo (lo + many) all) t.now image.now
        (kept image.now raw.old state.old first.old second.old) }
{
    let n = count_of(t, GROUP);
    let mut k: usize = 0;
    for g in 0..n {
        let count = elements_of(t, g);
        refresh_group(
            t, image, raw, state, first, second, all, lo, many, g, count, k,
        );
        k += count as usize;
    }
}
