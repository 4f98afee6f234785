// Words of 3 to 8 bytes and what is done with each, a table for each length: a row to a line, in the order of the alphabet.
use crate::class::Class::{
    self, ListedOnly, SkippedBlock, SkippedPlain, TakenBlock, TakenChoice, TakenPlain,
};
use crate::codes;

pub static OF_3: [([u8; 3], Class); 5] = [
    (*b"ECU", ListedOnly),
    (*b"EPK", ListedOnly),
    (*b"MAP", TakenChoice(codes::MAP)),
    (*b"RAM", ListedOnly),
    (*b"ROM", ListedOnly),
];

pub static OF_4: [([u8; 4], Class); 10] = [
    (*b"A2ML", SkippedBlock(codes::A2ML)),
    (*b"BYTE", ListedOnly),
    (*b"CODE", ListedOnly),
    (*b"DATA", ListedOnly),
    (*b"FORM", ListedOnly),
    (*b"LONG", ListedOnly),
    (*b"ROOT", ListedOnly),
    (*b"UNIT", ListedOnly),
    (*b"USER", ListedOnly),
    (*b"WORD", ListedOnly),
];

pub static OF_5: [([u8; 5], Class); 17] = [
    (*b"ASCII", ListedOnly),
    (*b"CURVE", TakenChoice(codes::CURVE)),
    (*b"EPROM", ListedOnly),
    (*b"FLASH", ListedOnly),
    (*b"FRAME", ListedOnly),
    (*b"GROUP", SkippedBlock(codes::GROUP)),
    (*b"PBYTE", ListedOnly),
    (*b"PLONG", ListedOnly),
    (*b"PWORD", ListedOnly),
    (*b"SBYTE", TakenChoice(codes::SBYTE)),
    (*b"SERAM", ListedOnly),
    (*b"SLONG", TakenChoice(codes::SLONG)),
    (*b"SWORD", TakenChoice(codes::SWORD)),
    (*b"UBYTE", TakenChoice(codes::UBYTE)),
    (*b"ULONG", TakenChoice(codes::ULONG)),
    (*b"UWORD", TakenChoice(codes::UWORD)),
    (*b"VALUE", TakenChoice(codes::VALUE)),
];

pub static OF_6: [([u8; 6], Class); 14] = [
    (*b"COEFFS", TakenPlain(codes::COEFFS)),
    (*b"CUBE_4", ListedOnly),
    (*b"CUBE_5", ListedOnly),
    (*b"CUBOID", ListedOnly),
    (*b"DIRECT", TakenChoice(codes::DIRECT)),
    (*b"EEPROM", ListedOnly),
    (*b"EXTERN", ListedOnly),
    (*b"FORMAT", SkippedPlain(codes::FORMAT)),
    (*b"HEADER", SkippedBlock(codes::HEADER)),
    (*b"INTERN", ListedOnly),
    (*b"LAYOUT", ListedOnly),
    (*b"LINEAR", TakenChoice(codes::LINEAR)),
    (*b"MODULE", TakenBlock(codes::MODULE)),
    (*b"NUMBER", TakenPlain(codes::NUMBER)),
];

pub static OF_7: [([u8; 7], Class); 13] = [
    (*b"A_INT64", ListedOnly),
    (*b"DEPOSIT", ListedOnly),
    (*b"DERIVED", ListedOnly),
    (*b"FORMULA", ListedOnly),
    (*b"IF_DATA", SkippedBlock(codes::IF_DATA)),
    (*b"MOD_PAR", SkippedBlock(codes::MOD_PAR)),
    (*b"NOT_MON", ListedOnly),
    (*b"NUMERIC", ListedOnly),
    (*b"PROJECT", TakenBlock(codes::PROJECT)),
    (*b"ROW_DIR", TakenChoice(codes::ROW_DIR)),
    (*b"VAL_BLK", TakenChoice(codes::VAL_BLK)),
    (*b"VERSION", ListedOnly),
    (*b"VIRTUAL", ListedOnly),
];

pub static OF_8: [([u8; 8], Class); 32] = [
    (*b"ABSOLUTE", ListedOnly),
    (*b"ADDR_EPK", ListedOnly),
    (*b"AXIS_PTS", TakenBlock(codes::AXIS_PTS)),
    (*b"A_UINT64", ListedOnly),
    (*b"BIT_MASK", TakenPlain(codes::BIT_MASK)),
    (*b"COM_AXIS", TakenChoice(codes::COM_AXIS)),
    (*b"CPU_TYPE", ListedOnly),
    (*b"CUSTOMER", ListedOnly),
    (*b"DISCRETE", ListedOnly),
    (*b"FIX_AXIS", ListedOnly),
    (*b"FUNCTION", SkippedBlock(codes::FUNCTION)),
    (*b"MAP_LIST", ListedOnly),
    (*b"MAX_GRAD", ListedOnly),
    (*b"MONOTONY", ListedOnly),
    (*b"MSB_LAST", TakenChoice(codes::MSB_LAST)),
    (*b"OFFSET_4", ListedOnly),
    (*b"OFFSET_5", ListedOnly),
    (*b"OFFSET_X", ListedOnly),
    (*b"OFFSET_Y", ListedOnly),
    (*b"OFFSET_Z", ListedOnly),
    (*b"PHONE_NO", ListedOnly),
    (*b"PRG_CODE", ListedOnly),
    (*b"PRG_DATA", ListedOnly),
    (*b"RAT_FUNC", TakenChoice(codes::RAT_FUNC)),
    (*b"REF_UNIT", ListedOnly),
    (*b"REGISTER", ListedOnly),
    (*b"RESERVED", ListedOnly),
    (*b"RES_AXIS", ListedOnly),
    (*b"STD_AXIS", TakenChoice(codes::STD_AXIS)),
    (*b"SUPPLIER", ListedOnly),
    (*b"TAB_INTP", ListedOnly),
    (*b"TAB_VERB", TakenChoice(codes::TAB_VERB)),
];
