// The command `list`: the whole listing of an image.
use console::ending::Ending;
use console::kept::{Columns, Loaded};
use printing::printed::print_listing;
use requests::made::make_kept;

// Lists an image.
pub fn list(rt: &impl Print, d: Loaded<'_>, image: &[u8]) -> Ending {
    let mut kept = Columns::zeros();
    make_kept(rt, d, image, &mut kept)?;
    print_listing(rt, d, image, &kept)
}
