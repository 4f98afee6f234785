// The sizes of what is lent: the description, the image and the tables.
ghost use Rattle.std.specs.Prelude.{◌≡◌};
ghost use Rattle.tables.specs.Sizes.{sizes_fit};

use crate::form::ROOM;

// "At most 16 MiB of description, 1 MiB of image, base address plus image length 2^32"
const MOST_TEXT: usize = 16777216;

const MOST_IMAGE: usize = 1048576;

const MOST_ADDRESS: u64 = 4294967296;

// Whether n bytes of description, m of image at a base address and so many cells of tables are within the sizes.
pub fn sizes_fit(n: usize, m: usize, base: u32, cells: usize) -> bool
    ensures { result ≡ sizes_fit n m base cells }
{
    if (n <= MOST_TEXT) & (m <= MOST_IMAGE) {
        return ((base as u64) + (m as u64) <= MOST_ADDRESS) & ((ROOM as usize) <= cells);
    }
    false
}
