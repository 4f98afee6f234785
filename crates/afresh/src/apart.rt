// Groups whose bytes lie apart from those written.
ghost use Rattle.std.specs.Prelude.{◌≡◌, true, false, ℕ, ◌+◌, ◌*◌, ◌≤◌, ◌<◌};
ghost use Rattle.cell.specs.Kind.{shape_of};
ghost use Rattle.tables.specs.Group.{IsModest, IsReachable, place_by};
ghost use Rattle.look.specs.Element.{shares};

use look::bytes::share;
use tables::group::{Storage, place_by, type_bytes};

// The walk of an axis whose last point is stored first.
const LAST_FIRST: u64 = 1;

// Whether an element of what is stored so has one of so many bytes from a place on.
pub fn has_byte(s: Storage, lo: u64, many: u64, i: u64) -> bool
    requires { IsReachable s i }
    ensures { result ≡ shares lo (lo + many) (place_by s i) (shape_of s.kind).bytes }
{
    share(lo, many, place_by(s, i), type_bytes(s.kind) as u64)
}

// Whether the room of what is stored so holds every element of it.
fn holds_all(s: Storage) -> bool
    ensures { result ≡ true → (s.x ≤ s.wide) × (s.y ≤ s.high) × (s.walk ≡ 1 → s.y ≡ 1) }
{
    (s.x <= s.wide) & (s.y <= s.high) & ((s.walk != LAST_FIRST) | (s.y == 1))
}

// How many bytes the room of what is stored so has.
fn room_bytes(s: Storage) -> u64
    requires { IsModest s }
    ensures { result ≡ (shape_of s.kind).bytes * (s.wide * s.high) }
{
    let room = (s.wide as u64) * (s.high as u64);
    (type_bytes(s.kind) as u64) * room
}

// Whether the whole of what is stored so lies apart from so many bytes from a place on: then no element has one of them.
pub fn lies_apart(s: Storage, lo: u64, many: u64) -> bool
    requires { IsModest s }
    ensures { result ≡ true → (i : ℕ) → i < s.x * s.y → shares lo (lo + many) (place_by s i) (shape_of s.kind).bytes ≡ false }
{
    let common = share(lo, many, s.place as u64, room_bytes(s));
    holds_all(s) & !common
}
