// The single tests of the table rule.
ghost use Rattle.std.specs.Prelude.{◌≡◌, ◌+◌, leb};
ghost use Rattle.tables.specs.Rule.{is_fraction, text_rule, inside_rule};

// The words' codes: what an object is, and conversions. The lent tables hold the numbers.
pub const AXIS_PTS: u64 = 7;

pub const MEASUREMENT: u64 = 10;

pub const VALUE: u64 = 15;

pub const VAL_BLK: u64 = 16;

pub const CURVE: u64 = 17;

pub const MAP: u64 = 18;

pub const IDENTICAL: u64 = 19;

pub const LINEAR: u64 = 20;

pub const RAT_FUNC: u64 = 21;

pub const TAB_VERB: u64 = 22;

// Whether a code is that of a conversion with coefficients.
pub fn is_fraction(k: u64) -> bool
    ensures { result ≡ is_fraction k }
{
    (IDENTICAL <= k) & (k <= RAT_FUNC)
}

// Whether a text's places are inside a description of n bytes.
pub fn is_text(n: usize, from: u64, past: u64) -> bool
    ensures { result ≡ text_rule n from past }
{
    (from <= past) & (past <= (n as u64))
}

// Whether so many bytes from a place on are inside an image of m bytes.
pub fn is_inside(m: usize, at: u32, many: u64) -> bool
    ensures { result ≡ inside_rule m at many }
{
    is_sum_within(at as u64, many, m as u64)
}

// Whether a sum is at most a number.
pub fn is_sum_within(a: u64, b: u64, most: u64) -> bool
    ensures { result ≡ leb (a + b) most }
{
    if a <= most {
        return b <= most - a;
    }
    false
}
