// Bytes in common.
ghost use Rattle.std.specs.Prelude.{◌≡◌, ◌+◌, ltb};
ghost use Rattle.tables.specs.Form.{tables_in};
ghost use Rattle.look.specs.Element.{shares, touched};

use tables::group::{bytes_of, place_of};

// Whether a place is below the end of so many bytes.
fn is_below(a: u64, from: u64, many: u64) -> bool
    ensures { result ≡ ltb a (from + many) }
{
    a < from || a - from < many
}

// Whether so many bytes from a place on, and others from another, have one in common.
pub fn share(lo: u64, many: u64, p: u64, w: u64) -> bool
    ensures { result ≡ shares lo (lo + many) p w }
{
    is_below(p, lo, many) & is_below(lo, p, w)
}

// Whether an element has one of so many bytes from a place on.
pub fn touches(t: &[u64], lo: u64, many: u64, g: u16, i: u32) -> bool
    ensures { result ≡ touched (tables_in t.now) lo (lo + many) g i }
{
    share(lo, many, place_of(t, g, i), bytes_of(t, g) as u64)
}
