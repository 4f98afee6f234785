// A physical value and a shown one: the types. The crate `fraction` has the fraction of a raw number.

// States of a line: none, a number, a text.
pub const NONE: u8 = 0;

pub const NUMBER: u8 = 1;

pub const TEXT: u8 = 2;

// A physical value as a line of the list holds it: the fraction's two numbers, or the text's first byte and the one past it.
// No enum: the C interface's columns hold a value as these three cells, one in each.
#[derive(Clone, Copy)]
pub struct Physical {
    pub state: u8,
    pub first: i64,
    pub second: i64,
}

// A shown value: a number, a text's two byte places, or nothing.
// No Option: one match tells the three apart, where an Option of two kinds would need two.
#[derive(Clone, Copy)]
pub enum Shown {
    Real(f64),
    Words(u64, u64),
    Nothing,
}
