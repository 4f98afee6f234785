// The element and the write that a person names.
use ask::typed::{part_of, raw_typed};
use console::arguments::index_of;
use console::ending::{Errors, Stop};
use console::kept::{Columns, Element, Loaded};
use console::message::{error_about, refused};
use list::write::{write_physical, write_raw};
use look::refusal::CallRefusal;
use named::search;
use std::fmt;

// What is wrong with a request: its fields, its index, its name, its way, or the search for its name was refused.
#[derive(Clone, Copy)]
pub enum Wrong<'a> {
    Fields,
    Index(&'a [u8]),
    Name(&'a [u8]),
    Way(&'a [u8]),
    Refused(u8),
}

impl<'a> Wrong<'a> {
    // The word that is wrong.
    pub fn word(&self) -> &'a [u8] {
        match *self {
            Wrong::Fields | Wrong::Refused(_) => b"",
            Wrong::Index(word) | Wrong::Name(word) | Wrong::Way(word) => word,
        }
    }
}

// In words before the word that is wrong.
impl fmt::Display for Wrong<'_> {
    fn fmt<W: fmt::Write>(&self, f: &mut fmt::Formatter<W>) -> fmt::Result {
        match self {
            Wrong::Fields => f.write_str(
                "a request has five fields parted by tabs: NAME PART INDEX raw|phys VALUE",
            ),
            Wrong::Index(_) => f.write_str("the index is no whole number: "),
            Wrong::Name(_) => f.write_str("no object has the name "),
            Wrong::Way(_) => f.write_str("a value is written as raw or phys, not as "),
            Wrong::Refused(no) => write!(f, "refused {no}"),
        }
    }
}

// How a value is written.
#[derive(Clone, Copy)]
pub enum Way {
    Raw,
    Physical,
}

// The element of a name, a part and an index.
pub fn element_named<'a>(
    d: Loaded<'_>,
    image: &[u8],
    name: &'a [u8],
    part: &[u8],
    index: &'a [u8],
) -> Result<Element, Wrong<'a>> {
    let i = index_of(index).ok_or(Wrong::Index(index))?;
    match search(d.x, image, d.base, d.t, name) {
        Ok(Some(object)) => Ok(Element {
            object: object as u32,
            part: part_of(part),
            index: i,
        }),
        Ok(None) => Err(Wrong::Name(name)),
        Err(r) => Err(Wrong::Refused(r.number())),
    }
}

// The way that a word names.
pub fn way_of(word: &[u8]) -> Result<Way, Wrong<'_>> {
    match word {
        b"raw" => Ok(Way::Raw),
        b"phys" => Ok(Way::Physical),
        _ => Err(Wrong::Way(word)),
    }
}

// Says what is wrong with the words of an argument list.
pub fn stop_at(rt: &(impl Print + Errors), wrong: Wrong<'_>) -> Stop {
    match wrong {
        Wrong::Refused(no) => refused(rt, no),
        _ => error_about(rt, wrong, wrong.word()),
    }
}

// Carries out one write. A raw value that is no number is 15 in its place in the order of refusals, as an asked value without a form is.
pub fn write_one(
    d: Loaded<'_>,
    image: &mut [u8],
    kept: &mut Columns,
    element: Element,
    way: Way,
    value: &[u8],
) -> Result<(), CallRefusal> {
    let Element {
        object,
        part,
        index,
    } = element;
    let (raw, state) = (&mut kept.raw, &mut kept.state);
    let (first, second) = (&mut kept.first, &mut kept.second);
    let asked = match way {
        Way::Physical => value,
        Way::Raw => match raw_typed(value) {
            Some(z) => {
                return write_raw(
                    d.x, image, d.base, d.t, raw, state, first, second, object, part, index, z,
                );
            }
            None => b"",
        },
    };
    write_physical(
        d.x, image, d.base, d.t, raw, state, first, second, object, part, index, asked,
    )
}
