// Which number of a table's row is which field: specs/Cells.antt has the same order.
// Numbers and no fields of a struct: row_cell and the others answer for any number, as their clauses say.

// Of a keyword's row.
pub const ROW_PARENT: u8 = 0;

pub const ROW_WORD: u8 = 1;

pub const ROW_OPENS: u8 = 2;

pub const ROW_SEC: u8 = 3;

pub const ROW_ONCE: u8 = 4;

pub const ROW_WHEN: u8 = 5;

pub const ROW_LOW: u8 = 6;

pub const ROW_HIGH: u8 = 7;

pub const ROW_ADDS: u8 = 8;

pub const ROW_FIRST: u8 = 9;

// Of a parameter.
pub const PARAM_KIND: u8 = 0;

pub const PARAM_SLOT: u8 = 1;

pub const PARAM_NEXT: u8 = 2;

pub const PARAM_SEC: u8 = 3;

// Of a parameter's limits.
pub const LIMIT_LOW: u8 = 0;

pub const LIMIT_HIGH: u8 = 1;

// Of a need.
pub const NEED_BLOCK: u8 = 0;

pub const NEED_SEC: u8 = 1;

pub const NEED_WHEN: u8 = 2;

pub const NEED_LOW: u8 = 3;

pub const NEED_HIGH: u8 = 4;

pub const NEED_SLOT: u8 = 5;

pub const NEED_LEAST: u8 = 6;
