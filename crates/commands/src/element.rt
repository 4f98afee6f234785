// The element that the arguments name.
use console::arguments::{INDEX, NAME, PART};
use console::called::word_at;
use console::ending::{Errors, Stop};
use console::kept::{Element, Loaded};
use requests::requested::{element_named, stop_at};
use std::rt::Env;

// The element that the arguments name.
pub fn element_typed(
    rt: &(impl Print + Errors + Env),
    d: Loaded<'_>,
    image: &[u8],
) -> Result<Element, Stop> {
    let name = word_at(rt, NAME);
    let part = word_at(rt, PART);
    let index = word_at(rt, INDEX);
    element_named(d, image, name.bytes(), part.bytes(), index.bytes()).map_err(|wrong| stop_at(
        rt, wrong,
    ))
}
