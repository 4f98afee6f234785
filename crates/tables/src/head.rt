// The head of the lent tables.
ghost use Rattle.std.specs.Prelude.{◌≡◌};
ghost use Rattle.tables.specs.Form.{tables_in, edition, total};

use crate::form::{HEAD, slot_of};

// The edition that the description was loaded by.
pub fn edition_of(t: &[u64]) -> u64
    ensures { result ≡ edition (tables_in t.now) }
{
    slot_of(t, HEAD, 0, 0)
}

// How many elements all objects have, as the head says.
pub fn total_of(t: &[u64]) -> u64
    ensures { result ≡ total (tables_in t.now) }
{
    slot_of(t, HEAD, 0, 2)
}
