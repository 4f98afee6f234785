// What the commands work on: a description that was loaded, its elements, and the list that is kept of its image.
use crate::sizes::LINES;

// A description that was loaded: its text, the base address, and its tables.
#[derive(Clone, Copy)]
pub struct Loaded<'a> {
    pub x: &'a [u8],
    pub base: u32,
    pub t: &'a [u64],
}

// An element by object number, part and index.
#[derive(Clone, Copy)]
pub struct Element {
    pub object: u32,
    pub part: u8,
    pub index: u32,
}

// The four columns of the kept list, in fixed memory.
#[derive(Drop)]
pub struct Columns {
    pub raw: [i64; LINES],
    pub state: [u8; LINES],
    pub first: [i64; LINES],
    pub second: [i64; LINES],
}

impl Columns {
    // Columns of zeros.
    pub fn zeros() -> Columns {
        Columns {
            raw: [0; LINES],
            state: [0; LINES],
            first: [0; LINES],
            second: [0; LINES],
        }
    }
}
