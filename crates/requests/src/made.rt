// The list that is kept of an image.
use console::ending::Ending;
use console::kept::{Columns, Loaded};
use console::message::refused;
use list::make::make_list;

// Makes the list of an image, in columns that the caller has: they are large, and handing them on would copy them.
pub fn make_kept(rt: &impl Print, d: Loaded<'_>, image: &[u8], kept: &mut Columns) -> Ending {
    match make_list(
        d.x,
        image,
        d.base,
        d.t,
        &mut kept.raw,
        &mut kept.state,
        &mut kept.first,
        &mut kept.second,
    ) {
        Ok(()) => Ok(()),
        Err(r) => Err(refused(rt, r.number())),
    }
}
