// Records of numbers in sections of one lent slice. Every reading is total: what is not there reads as 0, and a store there does nothing.
#![tactic(auto)]

ghost use Rattle.std.specs.Prelude.{◌≡◌, length, get_or, set, replicate};
ghost use Rattle.records.specs.Cells.{place, count_in, slot_in, put_in, add_in};

// A section: where it begins, how many numbers a record has, how many records there are at most. What reads and writes one are functions:
// `slot(t, SECTION, i, k)` names the lent slice first, which a method of the section would hide among the places.
#[derive(Clone, Copy)]
pub struct Section {
    pub base: u32,
    pub width: u8,
    pub most: u16,
}

// The cell at a place, 0 past the end.
pub fn get(t: &[u64], i: usize) -> u64
    ensures { result ≡ get_or t.now i 0 }
{
    t.get(i).copied().unwrap_or(0)
}

// Stores in the cell at a place, and nothing past the end. (With get_mut the proof didn't close: what it lends can be told only by the
// prover's own names.)
pub fn set(t: &mut [u64], i: usize, v: u64)
    ensures { t.new ≡ set t.old i v }
{
    if i < t.len() {
        t[i] = v;
    }
}

// All cells set to 0.
pub fn clear(t: &mut [u64])
    ensures { t.new ≡ replicate (length t.old) 0 }
{
    t.fill(0);
}

// Where number k of record i stands.
fn place_of(c: Section, i: u16, k: u16) -> usize
    ensures { result ≡ place c i k }
{
    (c.base as usize) + (1 + (c.width as usize) * (i as usize) + (k as usize))
}

// How many records a section has.
pub fn count(t: &[u64], c: Section) -> u16
    ensures { result ≡ count_in t.now c }
{
    get(t, c.base as usize).min(c.most as u64) as u16
}

// Number k of record i.
pub fn slot(t: &[u64], c: Section, i: u16, k: u16) -> u64
    ensures { result ≡ slot_in t.now c i k }
{
    if (i < c.most) & (k < (c.width as u16)) {
        return get(t, place_of(c, i, k));
    }
    0
}

// Sets number k of record i.
pub fn put(t: &mut [u64], c: Section, i: u16, k: u16, v: u64)
    ensures { t.new ≡ put_in t.old c i k v }
{
    if (i < count(t, c)) & (k < (c.width as u16)) {
        set(t, place_of(c, i, k), v);
    }
}

// Adds a record of zeros where there is room.
pub fn add(t: &mut [u64], c: Section)
    ensures { t.new ≡ add_in t.old c }
{
    let n = count(t, c);
    if n < c.most {
        set(t, c.base as usize, (n as u64) + 1);
    }
}
