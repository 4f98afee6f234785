// The codes of the words that document 01 takes or skips. Keywords have one row of numbers, choices another.
// Numbers and no enum: the records and the lent tables hold them, and C sees an object's.

// Blocks that are taken.
pub const PROJECT: u8 = 1;

pub const MODULE: u8 = 2;

pub const MOD_COMMON: u8 = 3;

pub const COMPU_METHOD: u8 = 4;

pub const COMPU_VTAB: u8 = 5;

pub const RECORD_LAYOUT: u8 = 6;

pub const AXIS_PTS: u8 = 7;

pub const CHARACTERISTIC: u8 = 8;

pub const AXIS_DESCR: u8 = 9;

pub const MEASUREMENT: u8 = 10;

// Plain keywords that are taken.
pub const COEFFS_LINEAR: u8 = 11;

pub const COEFFS: u8 = 12;

pub const COMPU_TAB_REF: u8 = 13;

pub const AXIS_PTS_REF: u8 = 14;

pub const NUMBER: u8 = 15;

pub const ECU_ADDRESS: u8 = 16;

pub const FNC_VALUES: u8 = 17;

pub const AXIS_PTS_X: u8 = 18;

pub const AXIS_PTS_Y: u8 = 19;

pub const NO_AXIS_PTS_X: u8 = 20;

pub const NO_AXIS_PTS_Y: u8 = 21;

pub const BYTE_ORDER: u8 = 22;

pub const ALIGNMENT_BYTE: u8 = 23;

pub const ALIGNMENT_WORD: u8 = 24;

pub const ALIGNMENT_LONG: u8 = 25;

pub const BIT_MASK: u8 = 26;

pub const READ_ONLY: u8 = 27;

pub const DEFAULT_VALUE: u8 = 28;

// Blocks that are skipped.
pub const A2ML: u8 = 29;

pub const IF_DATA: u8 = 30;

pub const ANNOTATION: u8 = 31;

pub const GROUP: u8 = 32;

pub const FUNCTION: u8 = 33;

pub const FUNCTION_LIST: u8 = 34;

pub const MOD_PAR: u8 = 35;

pub const HEADER: u8 = 36;

// Plain keywords that are skipped.
pub const FORMAT: u8 = 37;

pub const DISPLAY_IDENTIFIER: u8 = 38;

pub const PHYS_UNIT: u8 = 39;

pub const ASAP2_VERSION: u8 = 40;

pub const A2ML_VERSION: u8 = 41;

// Choices: data types (7 is kept free), byte orders, index modes, index orders, addressing, types of CHARACTERISTIC, conversions, axes.
pub const UBYTE: u8 = 1;

pub const SBYTE: u8 = 2;

pub const UWORD: u8 = 3;

pub const SWORD: u8 = 4;

pub const ULONG: u8 = 5;

pub const SLONG: u8 = 6;

pub const MSB_FIRST: u8 = 8;

pub const MSB_LAST: u8 = 9;

pub const ROW_DIR: u8 = 10;

pub const COLUMN_DIR: u8 = 11;

pub const INDEX_INCR: u8 = 12;

pub const INDEX_DECR: u8 = 13;

pub const DIRECT: u8 = 14;

pub const VALUE: u8 = 15;

pub const VAL_BLK: u8 = 16;

pub const CURVE: u8 = 17;

pub const MAP: u8 = 18;

pub const IDENTICAL: u8 = 19;

pub const LINEAR: u8 = 20;

pub const RAT_FUNC: u8 = 21;

pub const TAB_VERB: u8 = 22;

pub const STD_AXIS: u8 = 23;

pub const COM_AXIS: u8 = 24;
