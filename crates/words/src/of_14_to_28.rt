// Words of 14 to 28 bytes and what is done with each, a table for each length: a row to a line, in the order of the alphabet.
use crate::class::Class::{self, ListedOnly, SkippedPlain, TakenBlock, TakenPlain};
use crate::codes;

pub static OF_14: [([u8; 14], Class); 15] = [
    (*b"ALIGNMENT_BYTE", TakenPlain(codes::ALIGNMENT_BYTE)),
    (*b"ALIGNMENT_LONG", TakenPlain(codes::ALIGNMENT_LONG)),
    (*b"ALIGNMENT_WORD", TakenPlain(codes::ALIGNMENT_WORD)),
    (*b"AXIS_RESCALE_4", ListedOnly),
    (*b"AXIS_RESCALE_5", ListedOnly),
    (*b"AXIS_RESCALE_X", ListedOnly),
    (*b"AXIS_RESCALE_Y", ListedOnly),
    (*b"AXIS_RESCALE_Z", ListedOnly),
    (*b"CHARACTERISTIC", TakenBlock(codes::CHARACTERISTIC)),
    (*b"CURVE_AXIS_REF", ListedOnly),
    (*b"IDENTIFICATION", ListedOnly),
    (*b"IN_MEASUREMENT", ListedOnly),
    (*b"MEMORY_SEGMENT", ListedOnly),
    (*b"NO_CALIBRATION", ListedOnly),
    (*b"VARIANT_CODING", ListedOnly),
];

pub static OF_15: [([u8; 15], Class); 11] = [
    (*b"ALIGNMENT_INT64", ListedOnly),
    (*b"ANNOTATION_TEXT", ListedOnly),
    (*b"EXTENDED_LIMITS", ListedOnly),
    (*b"LOC_MEASUREMENT", ListedOnly),
    (*b"OUT_MEASUREMENT", ListedOnly),
    (*b"REF_MEASUREMENT", ListedOnly),
    (*b"STRICT_DECREASE", ListedOnly),
    (*b"STRICT_INCREASE", ListedOnly),
    (*b"SYSTEM_CONSTANT", ListedOnly),
    (*b"UNIT_CONVERSION", ListedOnly),
    (*b"VAR_MEASUREMENT", ListedOnly),
];

pub static OF_16: [([u8; 16], Class); 7] = [
    (*b"ALTERNATE_CURVES", ListedOnly),
    (*b"ALTERNATE_WITH_X", ListedOnly),
    (*b"ALTERNATE_WITH_Y", ListedOnly),
    (*b"ANNOTATION_LABEL", ListedOnly),
    (*b"COMPU_VTAB_RANGE", ListedOnly),
    (*b"FUNCTION_VERSION", ListedOnly),
    (*b"NO_OF_INTERFACES", ListedOnly),
];

pub static OF_17: [([u8; 17], Class); 11] = [
    (*b"ANNOTATION_ORIGIN", ListedOnly),
    (*b"FIX_AXIS_PAR_DIST", ListedOnly),
    (*b"FIX_AXIS_PAR_LIST", ListedOnly),
    (*b"FIX_NO_AXIS_PTS_4", ListedOnly),
    (*b"FIX_NO_AXIS_PTS_5", ListedOnly),
    (*b"FIX_NO_AXIS_PTS_X", ListedOnly),
    (*b"FIX_NO_AXIS_PTS_Y", ListedOnly),
    (*b"FIX_NO_AXIS_PTS_Z", ListedOnly),
    (*b"FRAME_MEASUREMENT", ListedOnly),
    (*b"NOT_IN_MCD_SYSTEM", ListedOnly),
    (*b"STATUS_STRING_REF", ListedOnly),
];

pub static OF_18: [([u8; 18], Class); 10] = [
    (*b"CALIBRATION_ACCESS", ListedOnly),
    (*b"CALIBRATION_HANDLE", ListedOnly),
    (*b"CALIBRATION_METHOD", ListedOnly),
    (*b"DEF_CHARACTERISTIC", ListedOnly),
    (
        *b"DISPLAY_IDENTIFIER",
        SkippedPlain(codes::DISPLAY_IDENTIFIER),
    ),
    (*b"EXCLUDE_FROM_FLASH", ListedOnly),
    (*b"REF_CHARACTERISTIC", ListedOnly),
    (*b"REF_MEMORY_SEGMENT", ListedOnly),
    (*b"VAR_CHARACTERISTIC", ListedOnly),
    (*b"VAR_FORBIDDEN_COMB", ListedOnly),
];

pub static OF_19: [([u8; 19], Class); 2] = [
    (*b"COMPARISON_QUANTITY", ListedOnly),
    (*b"OFFLINE_CALIBRATION", ListedOnly),
];

pub static OF_20: [([u8; 20], Class); 1] = [(*b"STATIC_RECORD_LAYOUT", ListedOnly)];

pub static OF_21: [([u8; 21], Class); 3] = [
    (*b"CALIBRATION_VARIABLES", ListedOnly),
    (*b"DEFAULT_VALUE_NUMERIC", ListedOnly),
    (*b"ECU_ADDRESS_EXTENSION", ListedOnly),
];

pub static OF_22: [([u8; 22], Class); 4] = [
    (*b"ALIGNMENT_FLOAT32_IEEE", ListedOnly),
    (*b"ALIGNMENT_FLOAT64_IEEE", ListedOnly),
    (*b"ECU_CALIBRATION_OFFSET", ListedOnly),
    (*b"VIRTUAL_CHARACTERISTIC", ListedOnly),
];

pub static OF_23: [([u8; 23], Class); 1] = [(*b"CALIBRATION_HANDLE_TEXT", ListedOnly)];

pub static OF_24: [([u8; 24], Class); 1] = [(*b"DEPENDENT_CHARACTERISTIC", ListedOnly)];

pub static OF_28: [([u8; 28], Class); 1] = [(*b"VAR_SELECTION_CHARACTERISTIC", ListedOnly)];
