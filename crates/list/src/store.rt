// An accepted write: the image's bytes and the lines that share one with them.
ghost use Rattle.std.specs.Prelude.{◌≡◌, ◌≤◌};
ghost use Rattle.tables.specs.Form.{tables_in};
ghost use Rattle.number.specs.Below.{sum_below};
ghost use Rattle.tables.specs.Group.{elements};
ghost use Rattle.look.specs.Calls.{kept, room, groups, written_to};

use afresh::refresh::refresh;
use tables::group::{bytes_of, place_of};
use wanted::stored::store_raw;

// Stores a raw number in an element, and works out afresh every line that shares a byte with it.
pub fn store(
    t: &[u64],
    image: &mut [u8],
    raw: &mut [i64],
    state: &mut [u8],
    first: &mut [i64],
    second: &mut [i64],
    g: u16,
    i: u32,
    z: i64,
)
    requires { sum_below (groups t.now) (elements (tables_in t.now)) ≤ room (kept image.old raw.old state.old first.old second.old) }
    ensures { kept image.new raw.new state.new first.new second.new
        ≡ written_to t.now g i (kept image.old raw.old state.old first.old second.old) z }
{
    store_raw(t, image, g, i, z);
    let lo = place_of(t, g, i);
    let many = bytes_of(t, g) as u64;
    refresh(t, image, raw, state, first, second, false, lo, many);
}
