// Where an object stands, and how far its parts are placed: the types. The crate `judge` places them.
use crate::order::Aligns;

// Where an object and the image stand, whether its byte order is MSB_FIRST, and the alignment words in force.
#[derive(Clone, Copy)]
pub struct Ground {
    pub address: u32,
    pub base: u32,
    pub first: bool,
    pub aligns: Aligns,
}

// Each part's address (0 where the object has it not), and the points in x and in y.
#[derive(Clone, Copy)]
pub struct Places {
    pub values: u64,
    pub x: u64,
    pub y: u64,
    pub nx: u64,
    pub ny: u64,
    pub cx: u16,
    pub cy: u16,
}

// How far the parts are placed: the address past the last one, and whether there is one.
#[derive(Clone, Copy)]
pub struct Reached {
    pub free: u64,
    pub any: bool,
    pub places: Places,
}
