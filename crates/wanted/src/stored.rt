// A raw number in the bytes of its element.
ghost use Rattle.std.specs.Prelude.{◌≡◌};
ghost use Rattle.look.specs.Calls.{stored};

use cell::raw::write_raw;
use tables::group::{is_first, kind_of, mask_of, place_of};

// Stores a raw number in an element's bytes.
pub fn store_raw(t: &[u64], image: &mut [u8], g: u16, i: u32, z: i64)
    ensures { image.new ≡ stored t.now g i image.old z }
{
    let at = place_of(t, g, i) as usize;
    write_raw(image, at, kind_of(t, g), is_first(t, g), mask_of(t, g), z);
}
