// The slots of the records that code reads, by the names of specs/Slots.antt.
// A slot that stands in a row of references or a part's source, and one where a decimal begins, is a u8.

// A record that has a name: its name, the first record that it holds, its block's word.
pub const OWN_NAME: u16 = 0;

pub const OWN_NAME_PAST: u16 = 1;

pub const FIRST_HELD: u16 = 2;

pub const BLOCK_CODE: u16 = 3;

// The file's own record: MOD_COMMON's words.
pub const COMMON_BYTE_ORDER: u16 = 4;

pub const COMMON_ALIGNMENT_BYTE: u16 = 6;

pub const COMMON_ALIGNMENT_WORD: u16 = 8;

pub const COMMON_ALIGNMENT_LONG: u16 = 10;

// A method.
pub const CONVERSION_TYPE: u16 = 4;

pub const COEFF_B: u8 = 6;

pub const COEFF_C: u8 = 9;

pub const COEFF_E: u8 = 12;

pub const COEFF_F: u8 = 15;

pub const LINEAR_A: u8 = 19;

pub const LINEAR_B: u8 = 22;

pub const COMPU_TAB_REF: u8 = 26;

pub const COMPU_TAB_REF_PAST: u16 = 27;

// A table.
pub const DEFAULT_VALUE: u16 = 7;

pub const DEFAULT_VALUE_PAST: u16 = 8;

// An entry.
pub const ENTRY_SIGN: u16 = 0;

pub const ENTRY_SIZE: u16 = 1;

pub const ENTRY_TEXT: u8 = 2;

pub const ENTRY_TEXT_PAST: u16 = 3;

// A layout.
pub const LAYOUT_ALIGNMENT_BYTE: u16 = 5;

pub const LAYOUT_ALIGNMENT_WORD: u16 = 7;

pub const LAYOUT_ALIGNMENT_LONG: u16 = 9;

pub const FNC_VALUES_POSITION: u16 = 11;

pub const FNC_VALUES_TYPE: u16 = 12;

pub const FNC_VALUES_MODE: u16 = 13;

pub const AXIS_PTS_X_POSITION: u16 = 16;

pub const AXIS_PTS_X_TYPE: u16 = 17;

pub const AXIS_PTS_X_ORDER: u16 = 18;

pub const AXIS_PTS_Y_POSITION: u16 = 21;

pub const AXIS_PTS_Y_TYPE: u16 = 22;

pub const AXIS_PTS_Y_ORDER: u16 = 23;

pub const NO_AXIS_PTS_X_POSITION: u16 = 26;

pub const NO_AXIS_PTS_X_TYPE: u16 = 27;

pub const NO_AXIS_PTS_Y_POSITION: u16 = 29;

pub const NO_AXIS_PTS_Y_TYPE: u16 = 30;

// An object.
pub const OBJECT_TYPE: u16 = 4;

pub const OBJECT_ADDRESS: u16 = 5;

pub const OBJECT_LAYOUT: u8 = 6;

pub const OBJECT_LAYOUT_PAST: u16 = 7;

pub const OBJECT_CONVERSION: u8 = 8;

pub const OBJECT_INPUT_QUANTITY: u8 = 10;

pub const OBJECT_MAX_POINTS: u16 = 12;

pub const OBJECT_LOWER_LIMIT: u8 = 13;

pub const OBJECT_UPPER_LIMIT: u8 = 16;

pub const OBJECT_BYTE_ORDER: u16 = 20;

pub const BIT_MASK_SEEN: u16 = 21;

pub const BIT_MASK: u16 = 22;

pub const OBJECT_READ_ONLY_SEEN: u8 = 23;

pub const NUMBER_OF_VALUES: u16 = 25;

pub const AXIS_DESCR_SEEN: u16 = 26;

// An axis description.
pub const AXIS_ATTRIBUTE: u16 = 1;

pub const AXIS_INPUT_QUANTITY: u8 = 2;

pub const AXIS_CONVERSION: u8 = 4;

pub const AXIS_MAX_POINTS: u16 = 6;

pub const AXIS_LOWER_LIMIT: u8 = 7;

pub const AXIS_UPPER_LIMIT: u8 = 10;

pub const AXIS_PTS_REF: u8 = 14;

pub const AXIS_PTS_REF_PAST: u16 = 15;

pub const AXIS_READ_ONLY_SEEN: u8 = 16;
