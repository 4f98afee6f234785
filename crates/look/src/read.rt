// Reading one element.
ghost use Rattle.std.specs.Prelude.{◌≡◌, length};
ghost use Rattle.tables.specs.Form.{tables_in};
ghost use Rattle.look.specs.Element.{raw_in};
ghost use Rattle.look.specs.Calls.{lent_of, reading_of, reading};
ghost use Rattle.look.specs.Told.{told_reading, told_read};

use crate::check::{check, group_of, is_element};
use crate::element::raw_of;
use crate::meaning::means;
use crate::refusal::CallRefusal;
use convert::fraction::{Physical, Shown};
use fraction::fraction::shown_of;

// What is read of an element: the raw number, what it means, and what is shown of that.
#[derive(Clone, Copy)]
pub struct Reading {
    pub raw: i64,
    pub physical: Physical,
    pub shown: Shown,
}

// What stands in an element.
fn reading_of(t: &[u64], image: &[u8], g: u16, i: u32) -> Reading
    ensures { told_reading result ≡ reading_of (tables_in t.now) g (raw_in (tables_in t.now) image.now g i) }
{
    let raw = raw_of(t, image, g, i);
    let physical = means(t, g, raw);
    let shown = shown_of(physical);
    Reading {
        raw,
        physical,
        shown,
    }
}

// Reads an element by object number, part and index.
pub fn read(
    x: &[u8],
    image: &[u8],
    base: u32,
    t: &[u64],
    object: u32,
    part: u8,
    index: u32,
) -> Result<Reading, CallRefusal>
    ensures { told_read result ≡ reading t.now image.now (lent_of (length x.now) (length image.now) base) object part index }
{
    check(x.len(), image.len(), base, t, true)?;
    if !is_element(t, object, part, index) {
        return Err(CallRefusal::NoElement);
    }
    Ok(reading_of(t, image, group_of(object, part), index))
}
