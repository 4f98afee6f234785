// The command `get`: one element's line, and its fraction rounded to six places.
use crate::element::element_typed;
use console::ending::{Ending, Errors, Stop};
use console::kept::{Columns, Element, Loaded};
use console::message::refused;
use convert::fraction::{Physical, Shown};
use look::read::read;
use places::six::six_places;
use printing::printed::print_line;
use requests::made::make_kept;
use std::fmt;
use std::rt::Env;

// What the figures after the point stand for.
const PLACES: [u64; 6] = [100000, 10000, 1000, 100, 10, 1];

// Millionths as the figures after the point, without needless zeros at the end.
#[derive(Clone, Copy)]
struct Millionths(u64);

impl fmt::Display for Millionths {
    fn fmt<W: fmt::Write>(&self, f: &mut fmt::Formatter<W>) -> fmt::Result {
        let mut left = self.0;
        if left == 0 {
            return Ok(());
        }
        f.write_char('.')?;
        for place in PLACES {
            if left == 0 {
                break;
            }
            write!(f, "{}", left / place)?;
            left %= place;
        }
        Ok(())
    }
}

// A fraction rounded to six places, with a minus before one that is not zero then.
#[derive(Clone, Copy)]
struct Rounded(Physical);

impl fmt::Display for Rounded {
    fn fmt<W: fmt::Write>(&self, f: &mut fmt::Formatter<W>) -> fmt::Result {
        let Rounded(p) = *self;
        let six = six_places(p.first.unsigned_abs(), p.second.unsigned_abs());
        if p.first < 0 && (0 < six.whole || 0 < six.millionths) {
            f.write_char('-')?;
        }
        write!(f, "{}{}", six.whole, Millionths(six.millionths))
    }
}

// Reads an element.
fn read_element(
    rt: &impl Print,
    d: Loaded<'_>,
    image: &[u8],
    e: Element,
) -> Result<(Physical, Shown), Stop> {
    match read(d.x, image, d.base, d.t, e.object, e.part, e.index) {
        Ok(r) => Ok((r.physical, r.shown)),
        Err(r) => Err(refused(rt, r.number())),
    }
}

// Writes the line of the element that the arguments name, and its fraction rounded where it shows a number.
pub fn get(rt: &(impl Print + Errors + Env), d: Loaded<'_>, image: &[u8]) -> Ending {
    let element = element_typed(rt, d, image)?;
    let (physical, shown) = read_element(rt, d, image, element)?;
    let mut kept = Columns::zeros();
    make_kept(rt, d, image, &mut kept)?;
    print_line(rt, d, image, &kept, element)?;
    if let Shown::Real(_) = shown {
        println!(rt; "rounded\t{}", Rounded(physical))?;
    }
    Ok(())
}
