// The grammar's rows as numbers: specs/Rows.antt has them in words, and the proofs compute that they are the same.
// Each table is a static: it stands in the program once, and a call reads a cell of it.
#![tactic(auto)]

pub mod cells;
pub mod kinds;
pub mod slots;

ghost use Rattle.std.specs.Prelude.{◌≡◌, ◌&&◌, [], eqb, get_or};
ghost use Rattle.rows.specs.Numbered.{row_at};
ghost use Rattle.rows.specs.Cells.{row_cell, param_cell, limit_cell, need_cell};

// How many rows and needs there are.
pub const ROW_COUNT: u8 = 45;

pub const NEED_COUNT: u8 = 9;

// A keyword's row: parent, word, opens, section, once, when, low, high, adds, first parameter.
static ROWS: [[u8; 10]; 45] = [
    [0, 1, 1, 0, 0, 0, 0, 0, 7, 1], // PROJECT in FILE
    [1, 2, 1, 0, 1, 0, 0, 0, 7, 3], // MODULE in PROJECT
    [2, 3, 1, 0, 2, 0, 0, 0, 7, 5], // MOD_COMMON in MODULE
    [3, 22, 0, 0, 3, 0, 0, 0, 7, 6], // BYTE_ORDER in MOD_COMMON
    [3, 23, 0, 0, 5, 0, 0, 0, 7, 7], // ALIGNMENT_BYTE in MOD_COMMON
    [3, 24, 0, 0, 7, 0, 0, 0, 7, 8], // ALIGNMENT_WORD in MOD_COMMON
    [3, 25, 0, 0, 9, 0, 0, 0, 7, 9], // ALIGNMENT_LONG in MOD_COMMON
    [2, 4, 1, 1, 0, 0, 0, 0, 7, 10], // COMPU_METHOD in MODULE
    [4, 12, 0, 1, 5, 4, 21, 21, 7, 15], // COEFFS in COMPU_METHOD
    [4, 11, 0, 1, 18, 4, 20, 20, 7, 21], // COEFFS_LINEAR in COMPU_METHOD
    [4, 13, 0, 1, 25, 4, 22, 22, 7, 23], // COMPU_TAB_REF in COMPU_METHOD
    [2, 5, 1, 2, 0, 0, 0, 0, 7, 24], // COMPU_VTAB in MODULE
    [5, 28, 0, 2, 6, 0, 0, 0, 7, 30], // DEFAULT_VALUE in COMPU_VTAB
    [2, 6, 1, 4, 0, 0, 0, 0, 7, 31], // RECORD_LAYOUT in MODULE
    [6, 23, 0, 4, 4, 0, 0, 0, 7, 32], // ALIGNMENT_BYTE in RECORD_LAYOUT
    [6, 24, 0, 4, 6, 0, 0, 0, 7, 33], // ALIGNMENT_WORD in RECORD_LAYOUT
    [6, 25, 0, 4, 8, 0, 0, 0, 7, 34], // ALIGNMENT_LONG in RECORD_LAYOUT
    [6, 17, 0, 4, 10, 0, 0, 0, 7, 35], // FNC_VALUES in RECORD_LAYOUT
    [6, 18, 0, 4, 15, 0, 0, 0, 7, 39], // AXIS_PTS_X in RECORD_LAYOUT
    [6, 19, 0, 4, 20, 0, 0, 0, 7, 43], // AXIS_PTS_Y in RECORD_LAYOUT
    [6, 20, 0, 4, 25, 0, 0, 0, 7, 47], // NO_AXIS_PTS_X in RECORD_LAYOUT
    [6, 21, 0, 4, 28, 0, 0, 0, 7, 49], // NO_AXIS_PTS_Y in RECORD_LAYOUT
    [2, 7, 1, 5, 0, 0, 0, 0, 7, 51], // AXIS_PTS in MODULE
    [7, 22, 0, 5, 19, 0, 0, 0, 7, 61], // BYTE_ORDER in AXIS_PTS
    [7, 27, 0, 5, 23, 0, 0, 0, 7, 0], // READ_ONLY in AXIS_PTS
    [2, 8, 1, 5, 0, 0, 0, 0, 7, 62], // CHARACTERISTIC in MODULE
    [8, 22, 0, 5, 19, 0, 0, 0, 7, 71], // BYTE_ORDER in CHARACTERISTIC
    [8, 26, 0, 5, 21, 0, 0, 0, 7, 72], // BIT_MASK in CHARACTERISTIC
    [8, 27, 0, 5, 23, 0, 0, 0, 7, 0], // READ_ONLY in CHARACTERISTIC
    [8, 15, 0, 5, 24, 4, 16, 16, 7, 73], // NUMBER in CHARACTERISTIC
    [8, 9, 1, 5, 26, 0, 0, 0, 6, 74], // AXIS_DESCR in CHARACTERISTIC
    [9, 14, 0, 6, 13, 1, 24, 24, 7, 80], // AXIS_PTS_REF in AXIS_DESCR
    [9, 27, 0, 6, 16, 0, 0, 0, 7, 0], // READ_ONLY in AXIS_DESCR
    [9, 22, 2, 0, 0, 0, 0, 0, 7, 0], // BYTE_ORDER in AXIS_DESCR
    [2, 10, 1, 5, 0, 0, 0, 0, 7, 81], // MEASUREMENT in MODULE
    [10, 22, 0, 5, 19, 0, 0, 0, 7, 89], // BYTE_ORDER in MEASUREMENT
    [10, 26, 0, 5, 21, 0, 0, 0, 7, 90], // BIT_MASK in MEASUREMENT
    [10, 16, 0, 5, 27, 0, 0, 0, 7, 91], // ECU_ADDRESS in MEASUREMENT
    [255, 37, 0, 0, 0, 0, 0, 0, 7, 92], // FORMAT in ANY
    [255, 38, 0, 0, 0, 0, 0, 0, 7, 93], // DISPLAY_IDENTIFIER in ANY
    [255, 39, 0, 0, 0, 0, 0, 0, 7, 94], // PHYS_UNIT in ANY
    [255, 40, 0, 0, 0, 0, 0, 0, 7, 95], // ASAP2_VERSION in ANY
    [255, 41, 0, 0, 0, 0, 0, 0, 7, 97], // A2ML_VERSION in ANY
    [0, 40, 0, 0, 0, 0, 0, 0, 7, 99], // ASAP2_VERSION in FILE
    [0, 41, 0, 0, 0, 0, 0, 0, 7, 101], // A2ML_VERSION in FILE
];

// A parameter: kind, slot, next, section.
static PARAMS: [[u8; 4]; 103] = [
    [0, 0, 0, 0], // none
    [1, 0, 2, 0], // PROJECT
    [2, 0, 0, 0], // PROJECT
    [1, 0, 4, 0], // MODULE
    [2, 0, 0, 0], // MODULE
    [2, 0, 0, 0], // MOD_COMMON
    [5, 4, 0, 0], // BYTE_ORDER
    [8, 6, 0, 0], // ALIGNMENT_BYTE
    [8, 8, 0, 0], // ALIGNMENT_WORD
    [8, 10, 0, 0], // ALIGNMENT_LONG
    [6, 7, 11, 1], // COMPU_METHOD
    [2, 0, 12, 1], // COMPU_METHOD
    [5, 4, 13, 1], // COMPU_METHOD
    [2, 0, 14, 1], // COMPU_METHOD
    [2, 0, 0, 1], // COMPU_METHOD
    [9, 0, 16, 1], // COEFFS
    [4, 6, 17, 1], // COEFFS
    [4, 9, 18, 1], // COEFFS
    [9, 0, 19, 1], // COEFFS
    [4, 12, 20, 1], // COEFFS
    [4, 15, 0, 1], // COEFFS
    [4, 19, 22, 1], // COEFFS_LINEAR
    [4, 22, 0, 1], // COEFFS_LINEAR
    [1, 26, 0, 1], // COMPU_TAB_REF
    [6, 3, 25, 2], // COMPU_VTAB
    [2, 0, 26, 2], // COMPU_VTAB
    [5, 4, 27, 2], // COMPU_VTAB
    [11, 5, 28, 2], // COMPU_VTAB
    [12, 0, 29, 2], // COMPU_VTAB
    [13, 2, 0, 2], // COMPU_VTAB
    [2, 7, 0, 2], // DEFAULT_VALUE
    [6, 7, 0, 4], // RECORD_LAYOUT
    [8, 5, 0, 4], // ALIGNMENT_BYTE
    [8, 7, 0, 4], // ALIGNMENT_WORD
    [8, 9, 0, 4], // ALIGNMENT_LONG
    [3, 11, 36, 4], // FNC_VALUES
    [5, 12, 37, 4], // FNC_VALUES
    [5, 13, 38, 4], // FNC_VALUES
    [5, 14, 0, 4], // FNC_VALUES
    [3, 16, 40, 4], // AXIS_PTS_X
    [5, 17, 41, 4], // AXIS_PTS_X
    [5, 18, 42, 4], // AXIS_PTS_X
    [5, 19, 0, 4], // AXIS_PTS_X
    [3, 21, 44, 4], // AXIS_PTS_Y
    [5, 22, 45, 4], // AXIS_PTS_Y
    [5, 23, 46, 4], // AXIS_PTS_Y
    [5, 24, 0, 4], // AXIS_PTS_Y
    [3, 26, 48, 4], // NO_AXIS_PTS_X
    [5, 27, 0, 4], // NO_AXIS_PTS_X
    [3, 29, 50, 4], // NO_AXIS_PTS_Y
    [5, 30, 0, 4], // NO_AXIS_PTS_Y
    [6, 6, 52, 5], // AXIS_PTS
    [2, 0, 53, 5], // AXIS_PTS
    [3, 5, 54, 5], // AXIS_PTS
    [1, 10, 55, 5], // AXIS_PTS
    [1, 6, 56, 5], // AXIS_PTS
    [4, 0, 57, 5], // AXIS_PTS
    [1, 8, 58, 5], // AXIS_PTS
    [7, 12, 59, 5], // AXIS_PTS
    [4, 13, 60, 5], // AXIS_PTS
    [10, 16, 0, 5], // AXIS_PTS
    [5, 20, 0, 5], // BYTE_ORDER
    [6, 6, 63, 5], // CHARACTERISTIC
    [2, 0, 64, 5], // CHARACTERISTIC
    [5, 4, 65, 5], // CHARACTERISTIC
    [3, 5, 66, 5], // CHARACTERISTIC
    [1, 6, 67, 5], // CHARACTERISTIC
    [4, 0, 68, 5], // CHARACTERISTIC
    [1, 8, 69, 5], // CHARACTERISTIC
    [4, 13, 70, 5], // CHARACTERISTIC
    [10, 16, 0, 5], // CHARACTERISTIC
    [5, 20, 0, 5], // BYTE_ORDER
    [3, 22, 0, 5], // BIT_MASK
    [3, 25, 0, 5], // NUMBER
    [5, 1, 75, 6], // AXIS_DESCR
    [1, 2, 76, 6], // AXIS_DESCR
    [1, 4, 77, 6], // AXIS_DESCR
    [7, 6, 78, 6], // AXIS_DESCR
    [4, 7, 79, 6], // AXIS_DESCR
    [10, 10, 0, 6], // AXIS_DESCR
    [1, 14, 0, 6], // AXIS_PTS_REF
    [6, 6, 82, 5], // MEASUREMENT
    [2, 0, 83, 5], // MEASUREMENT
    [5, 4, 84, 5], // MEASUREMENT
    [1, 8, 85, 5], // MEASUREMENT
    [3, 0, 86, 5], // MEASUREMENT
    [4, 0, 87, 5], // MEASUREMENT
    [4, 13, 88, 5], // MEASUREMENT
    [10, 16, 0, 5], // MEASUREMENT
    [5, 20, 0, 5], // BYTE_ORDER
    [3, 22, 0, 5], // BIT_MASK
    [3, 5, 0, 5], // ECU_ADDRESS
    [2, 0, 0, 0], // FORMAT
    [1, 0, 0, 0], // DISPLAY_IDENTIFIER
    [2, 0, 0, 0], // PHYS_UNIT
    [3, 0, 96, 0], // ASAP2_VERSION
    [3, 0, 0, 0], // ASAP2_VERSION
    [3, 0, 98, 0], // A2ML_VERSION
    [3, 0, 0, 0], // A2ML_VERSION
    [3, 0, 100, 0], // ASAP2_VERSION
    [3, 0, 0, 0], // ASAP2_VERSION
    [3, 0, 102, 0], // A2ML_VERSION
    [3, 0, 0, 0], // A2ML_VERSION
];

// A parameter's least and greatest number or choice.
static LIMITS: [[u64; 2]; 103] = [
    [0, 0], // none
    [0, 0], // PROJECT
    [0, 0], // PROJECT
    [0, 0], // MODULE
    [0, 0], // MODULE
    [0, 0], // MOD_COMMON
    [8, 9], // BYTE_ORDER
    [1, 65535], // ALIGNMENT_BYTE
    [1, 65535], // ALIGNMENT_WORD
    [1, 65535], // ALIGNMENT_LONG
    [0, 0], // COMPU_METHOD
    [0, 0], // COMPU_METHOD
    [19, 22], // COMPU_METHOD
    [0, 0], // COMPU_METHOD
    [0, 0], // COMPU_METHOD
    [0, 0], // COEFFS
    [0, 0], // COEFFS
    [0, 0], // COEFFS
    [0, 0], // COEFFS
    [0, 0], // COEFFS
    [0, 0], // COEFFS
    [0, 0], // COEFFS_LINEAR
    [0, 0], // COEFFS_LINEAR
    [0, 0], // COMPU_TAB_REF
    [0, 0], // COMPU_VTAB
    [0, 0], // COMPU_VTAB
    [22, 22], // COMPU_VTAB
    [0, 65535], // COMPU_VTAB
    [0, 0], // COMPU_VTAB
    [0, 0], // COMPU_VTAB
    [0, 0], // DEFAULT_VALUE
    [0, 0], // RECORD_LAYOUT
    [1, 65535], // ALIGNMENT_BYTE
    [1, 65535], // ALIGNMENT_WORD
    [1, 65535], // ALIGNMENT_LONG
    [0, 65535], // FNC_VALUES
    [1, 6], // FNC_VALUES
    [10, 11], // FNC_VALUES
    [14, 14], // FNC_VALUES
    [0, 65535], // AXIS_PTS_X
    [1, 6], // AXIS_PTS_X
    [12, 13], // AXIS_PTS_X
    [14, 14], // AXIS_PTS_X
    [0, 65535], // AXIS_PTS_Y
    [1, 6], // AXIS_PTS_Y
    [12, 13], // AXIS_PTS_Y
    [14, 14], // AXIS_PTS_Y
    [0, 65535], // NO_AXIS_PTS_X
    [1, 6], // NO_AXIS_PTS_X
    [0, 65535], // NO_AXIS_PTS_Y
    [1, 6], // NO_AXIS_PTS_Y
    [0, 0], // AXIS_PTS
    [0, 0], // AXIS_PTS
    [0, 4294967295], // AXIS_PTS
    [0, 0], // AXIS_PTS
    [0, 0], // AXIS_PTS
    [0, 0], // AXIS_PTS
    [0, 0], // AXIS_PTS
    [1, 65535], // AXIS_PTS
    [0, 0], // AXIS_PTS
    [0, 0], // AXIS_PTS
    [8, 9], // BYTE_ORDER
    [0, 0], // CHARACTERISTIC
    [0, 0], // CHARACTERISTIC
    [15, 18], // CHARACTERISTIC
    [0, 4294967295], // CHARACTERISTIC
    [0, 0], // CHARACTERISTIC
    [0, 0], // CHARACTERISTIC
    [0, 0], // CHARACTERISTIC
    [0, 0], // CHARACTERISTIC
    [0, 0], // CHARACTERISTIC
    [8, 9], // BYTE_ORDER
    [0, 18446744073709551615], // BIT_MASK
    [1, 65535], // NUMBER
    [23, 24], // AXIS_DESCR
    [0, 0], // AXIS_DESCR
    [0, 0], // AXIS_DESCR
    [1, 65535], // AXIS_DESCR
    [0, 0], // AXIS_DESCR
    [0, 0], // AXIS_DESCR
    [0, 0], // AXIS_PTS_REF
    [0, 0], // MEASUREMENT
    [0, 0], // MEASUREMENT
    [1, 6], // MEASUREMENT
    [0, 0], // MEASUREMENT
    [0, 65535], // MEASUREMENT
    [0, 0], // MEASUREMENT
    [0, 0], // MEASUREMENT
    [0, 0], // MEASUREMENT
    [8, 9], // BYTE_ORDER
    [0, 18446744073709551615], // BIT_MASK
    [0, 4294967295], // ECU_ADDRESS
    [0, 0], // FORMAT
    [0, 0], // DISPLAY_IDENTIFIER
    [0, 0], // PHYS_UNIT
    [0, 65535], // ASAP2_VERSION
    [0, 65535], // ASAP2_VERSION
    [0, 65535], // A2ML_VERSION
    [0, 65535], // A2ML_VERSION
    [0, 65535], // ASAP2_VERSION
    [0, 65535], // ASAP2_VERSION
    [0, 65535], // A2ML_VERSION
    [0, 65535], // A2ML_VERSION
];

// What a block needs: block, section, when, low, high, slot, least.
static NEEDS: [[u8; 7]; 9] = [
    [1, 0, 0, 0, 0, 1, 1], // PROJECT
    [4, 1, 4, 21, 21, 5, 1], // COMPU_METHOD
    [4, 1, 4, 20, 20, 18, 1], // COMPU_METHOD
    [4, 1, 4, 22, 22, 25, 1], // COMPU_METHOD
    [8, 5, 4, 16, 16, 24, 1], // CHARACTERISTIC
    [8, 5, 4, 17, 17, 26, 1], // CHARACTERISTIC
    [8, 5, 4, 18, 18, 26, 2], // CHARACTERISTIC
    [9, 6, 1, 24, 24, 13, 1], // AXIS_DESCR
    [10, 5, 0, 0, 0, 27, 1], // MEASUREMENT
];

// Number f of row i of a table, and none past its numbers and its rows.
fn cell<T: Copy, const WIDTH: usize>(table: &[[T; WIDTH]], i: u8, f: u8, none: T) -> T
    ensures { result ≡ get_or (get_or table.now i []) f none }
{
    match table.get(i as usize) {
        Some(row) => row.get(f as usize).copied().unwrap_or(none),
        None => none,
    }
}

// Number f of row i.
pub fn row_cell(i: u8, f: u8) -> u8
    ensures { result ≡ row_cell i f }
{
    cell(&ROWS, i, f, 0)
}

// Number f of parameter p.
pub fn param_cell(p: u8, f: u8) -> u8
    ensures { result ≡ param_cell p f }
{
    cell(&PARAMS, p, f, 0)
}

// Limit f of parameter p.
pub fn limit_cell(p: u8, f: u8) -> u64
    ensures { result ≡ limit_cell p f }
{
    cell(&LIMITS, p, f, 0)
}

// Number f of need i.
pub fn need_cell(i: u8, f: u8) -> u8
    ensures { result ≡ need_cell i f }
{
    cell(&NEEDS, i, f, 0)
}

// Whether row i is that of the word w in the block b.
pub fn is_row(i: u8, b: u8, w: u8) -> bool
    ensures { result ≡ (eqb (row_at i).parent b && eqb (row_at i).word w) }
{
    (row_cell(i, cells::ROW_PARENT) == b) & (row_cell(i, cells::ROW_WORD) == w)
}
