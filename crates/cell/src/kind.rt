// Data types, by code. Any other code is none, and has no bytes.
// Numbers and no enum: shape_of answers for every number, as its clause says, and the lent tables hold the number.
ghost use Rattle.std.specs.Prelude.{◌≡◌};
ghost use Rattle.cell.specs.Kind.{is_type, shape_of};

pub const UBYTE: u64 = 1;

pub const SBYTE: u64 = 2;

pub const UWORD: u64 = 3;

pub const SWORD: u64 = 4;

pub const ULONG: u64 = 5;

pub const SLONG: u64 = 6;

// What a data type is: its size in bytes, whether it has a sign, and its alignment where no word sets one.
#[derive(Clone, Copy)]
pub struct Shape {
    pub bytes: usize,
    pub signed: bool,
    pub align: u8,
}

// Whether a code is a data type's.
pub fn is_type(code: u64) -> bool
    ensures { result ≡ is_type code }
{
    (UBYTE..=SLONG).contains(&code)
}

// The one decision on a data type.
pub fn shape_of(code: u64) -> Shape
    ensures { result ≡ shape_of code }
{
    match code {
        UBYTE..=SBYTE => Shape {
            bytes: 1,
            signed: code == SBYTE,
            align: 1,
        },
        UWORD..=SWORD => Shape {
            bytes: 2,
            signed: code == SWORD,
            align: 2,
        },
        ULONG..=SLONG => Shape {
            bytes: 4,
            signed: code == SLONG,
            align: 4,
        },
        _ => Shape {
            bytes: 0,
            signed: false,
            align: 1,
        },
    }
}
