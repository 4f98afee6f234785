// The form of the lent tables: their sections, and the records in them.
ghost use Rattle.std.specs.Prelude.{◌≡◌};
ghost use Rattle.records.specs.Cells.{section_in, count_in, slot_in, add_in, put_in};
ghost use Rattle.tables.specs.Form.{table_sections};

use records::Section;

// The sections: numbers and no enum, since slot_of answers for any number, as its clause says.
pub const HEAD: u8 = 0;

pub const OBJECT: u8 = 1;

pub const GROUP: u8 = 2;

pub const METHOD: u8 = 3;

pub const TABLE: u8 = 4;

pub const ENTRY: u8 = 5;

// How many cells the records take.
pub const ROOM: u32 = 36617;

// The parts of an object: x points, y points and values.
pub const PARTS: u16 = 3;

// A section's place, width and most records.
fn section(base: u32, width: u8, most: u16) -> Section
    ensures { result ≡ record { base = base; width = width; most = most } }
{
    Section { base, width, most }
}

// The section with the number j.
pub fn section_of(j: u8) -> Section
    ensures { result ≡ section_in table_sections j }
{
    match j {
        0 => section(0, 3, 1),
        1 => section(4, 3, 512),
        2 => section(1541, 19, 1536),
        3 => section(30726, 10, 128),
        4 => section(32007, 4, 128),
        5 => section(32520, 4, 1024),
        _ => section(ROOM, 0, 0),
    }
}

// How many records section j has.
pub fn count_of(t: &[u64], j: u8) -> u16
    ensures { result ≡ count_in t.now (section_in table_sections j) }
{
    records::count(t, section_of(j))
}

// Number k of record i of section j.
pub fn slot_of(t: &[u64], j: u8, i: u16, k: u16) -> u64
    ensures { result ≡ slot_in t.now (section_in table_sections j) i k }
{
    records::slot(t, section_of(j), i, k)
}

// Adds a record of zeros to section j where there is room.
pub fn add_record(t: &mut [u64], j: u8)
    ensures { t.new ≡ add_in t.old (section_in table_sections j) }
{
    records::add(t, section_of(j));
}

// Sets number k of record i of section j.
pub fn put_slot(t: &mut [u64], j: u8, i: u16, k: u16, v: u64)
    ensures { t.new ≡ put_in t.old (section_in table_sections j) i k v }
{
    records::put(t, section_of(j), i, k, v);
}
