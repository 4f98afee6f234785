// How many lines a list has room for.
ghost use Rattle.std.specs.Prelude.{◌≡◌, min, leb};
ghost use Rattle.tables.specs.Form.{total, tables_in};

use tables::head::total_of;

// How many lines the shortest of four columns has.
pub fn room_of(a: usize, b: usize, c: usize, d: usize) -> usize
    ensures { result ≡ min (min a b) (min c d) }
{
    a.min(b).min(c.min(d))
}

// Whether so many lines hold every element.
pub fn is_enough(t: &[u64], lines: usize) -> bool
    ensures { result ≡ leb (total (tables_in t.now)) lines }
{
    total_of(t) <= (lines as u64)
}
