// The kinds of parameters: specs/Kinds.antt has the same numbers.
// Numbers and no enum: a kind is a cell of its parameter's row, which param_cell gives as its clause says.
pub const NAME: u8 = 1;

pub const STRING: u8 = 2;

pub const WHOLE: u8 = 3;

pub const DECIMAL: u8 = 4;

pub const CHOICE: u8 = 5;

pub const NEW: u8 = 6;

pub const POINTS: u8 = 7;

pub const ALIGNMENT: u8 = 8;

pub const NOUGHT: u8 = 9;

pub const UPPER: u8 = 10;

pub const PAIRS: u8 = 11;

pub const NUMBER: u8 = 12;

pub const TEXT: u8 = 13;
