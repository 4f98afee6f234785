// What can be asked of the records in the lent cells, and writing into them.
ghost use Rattle.std.specs.Prelude.{◌≡◌, ◌-◌, min, [], ◌∷◌, take};
ghost use Rattle.number.specs.Told.{scaled};
ghost use Rattle.records.specs.Cells.{section_in, count_in, slot_in};
ghost use Rattle.rows.specs.Sections.{sections};
ghost use Rattle.grammar.specs.Move.{view_in, current, decimal_slots, values, puts_in, applied_in};

use crate::state::Act;
use number::decimal::Decimal;
use records::Section;

// The sections, and none: numbers and no enum, since slot_of answers for any number, as its clause says.
pub const FILE: u8 = 0;

pub const METHOD: u8 = 1;

pub const TABLE: u8 = 2;

pub const ENTRY: u8 = 3;

pub const LAYOUT: u8 = 4;

pub const OBJECT: u8 = 5;

pub const AXIS: u8 = 6;

pub const NONE: u8 = 7;

// How many cells the records take.
pub const ROOM: u32 = 42578;

// A section's place, width and most records.
fn section(base: u32, width: u8, most: u16) -> Section
    ensures { result ≡ record { base = base; width = width; most = most } }
{
    Section { base, width, most }
}

// The section with the number j.
pub fn section_of(j: u8) -> Section
    ensures { result ≡ section_in sections j }
{
    match j {
        0 => section(0, 11, 1),
        1 => section(12, 28, 128),
        2 => section(3597, 9, 128),
        3 => section(4750, 4, 1024),
        4 => section(8847, 31, 64),
        5 => section(10832, 28, 512),
        6 => section(25169, 17, 1024),
        _ => section(ROOM, 0, 0),
    }
}

// How many records section j has.
pub fn count_of(t: &[u64], j: u8) -> u16
    ensures { result ≡ count_in t.now (section_in sections j) }
{
    records::count(t, section_of(j))
}

// Number k of record i of section j.
pub fn slot_of(t: &[u64], j: u8, i: u16, k: u16) -> u64
    ensures { result ≡ slot_in t.now (section_in sections j) i k }
{
    records::slot(t, section_of(j), i, k)
}

// The number before n, 0 before 0.
pub fn before(n: u16) -> u16
    ensures { result ≡ n - 1 }
{
    n.saturating_sub(1)
}

// Number k of the current record of section j.
pub fn current_of(t: &[u64], j: u8, k: u16) -> u64
    ensures { result ≡ current (view_in t.now) j k }
{
    slot_of(t, j, before(count_of(t, j)), k)
}

// The decimal in three slots of record i of section j; the power of ten is at most 7.
pub fn decimal_slots(t: &[u64], j: u8, i: u16, k: u8) -> Decimal
    ensures { scaled result ≡ decimal_slots (view_in t.now) j i k }
{
    let c = section_of(j);
    let at = k as u16;
    let sign = records::slot(t, c, i, at);
    let whole = records::slot(t, c, i, at + 1);
    let power = records::slot(t, c, i, at + 2);
    Decimal {
        negative: sign == 1,
        whole,
        tens: power.min(7) as u32,
    }
}

// At most two numbers into record i of a section from slot k on.
fn put_two(t: &mut [u64], c: Section, i: u16, k: u16, many: u8, x: u64, y: u64)
    ensures { t.new ≡ puts_in t.old c i k (take many (x ∷ y ∷ [])) }
{
    if many == 0 {
        return;
    }
    records::put(t, c, i, k, x);
    if many == 1 {
        return;
    }
    if k < 65535 {
        records::put(t, c, i, k + 1, y);
    }
}

// The numbers of an act into record i of its section.
fn put_values(t: &mut [u64], c: Section, a: Act, i: u16)
    ensures { t.new ≡ puts_in t.old c i a.slot (values a) }
{
    let many = a.many;
    let k = a.slot as u16;
    if many < 3 {
        put_two(t, c, i, k, many, a.a, a.b);
        return;
    }
    put_two(t, c, i, k, 2, a.a, a.b);
    put_two(t, c, i, k + 2, many - 2, a.c, a.d);
}

// An act on the records.
pub fn act_on(t: &mut [u64], a: Act)
    ensures { t.new ≡ applied_in a t.old }
{
    records::add(t, section_of(a.adds));
    let i = before(count_of(t, a.sec));
    put_values(t, section_of(a.sec), a, i);
}
