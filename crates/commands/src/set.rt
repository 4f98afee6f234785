// The command `set`: one write.
use crate::element::element_typed;
use console::arguments::{VALUE, WAY};
use console::called::word_at;
use console::ending::Ending;
use console::kept::{Columns, Element, Loaded};
use files::replace::{Edits, keep};
use look::check::group_of;
use printing::printed::print_afresh;
use requests::limits::refused_write;
use requests::made::make_kept;
use requests::requested::{Way, stop_at, way_of, write_one};

// Writes to the kept list and to the image, replaces the image's file, and writes the lines that were worked out afresh.
fn set_kept(
    rt: &(impl Print + Edits),
    d: Loaded<'_>,
    image: &mut [u8],
    kept: &mut Columns,
    element: Element,
    way: Way,
    value: &[u8],
) -> Ending {
    let g = group_of(element.object, element.part);
    if let Err(r) = write_one(d, image, kept, element, way, value) {
        return Err(refused_write(rt, d.t, g, value, r.number()));
    }
    keep(rt, image)?;
    print_afresh(rt, d, image, kept, g, element.index)
}

// Writes the element that the arguments name.
pub fn set(rt: &(impl Print + Edits), d: Loaded<'_>, image: &mut [u8]) -> Ending {
    let element = element_typed(rt, d, image)?;
    let word = word_at(rt, WAY);
    let value = word_at(rt, VALUE);
    let way = way_of(word.bytes()).map_err(|wrong| stop_at(rt, wrong))?;
    let mut kept = Columns::zeros();
    make_kept(rt, d, image, &mut kept)?;
    set_kept(rt, d, image, &mut kept, element, way, value.bytes())
}
