// Printing lines of the kept list.
use console::ending::Ending;
use console::kept::{Columns, Element, Loaded};
use console::message::refused;
use console::sizes::LINE_ROOM;
use listings::element::line;
use look::bytes::touches;
use tables::form::{GROUP, PARTS, count_of};
use tables::group::{bytes_of, elements_of, place_of};

// Writes the line of one element.
pub fn print_line(
    rt: &impl Print,
    d: Loaded<'_>,
    image: &[u8],
    kept: &Columns,
    e: Element,
) -> Ending {
    let mut out = [0u8; LINE_ROOM];
    match line(
        d.x,
        image,
        d.base,
        d.t,
        e.object,
        e.part,
        e.index,
        &kept.raw,
        &kept.state,
        &kept.first,
        &kept.second,
        &mut out,
    ) {
        Ok(n) => Ok(rt.write_all(out.get(..n).unwrap_or(&out))?),
        Err(r) => Err(refused(rt, r.number())),
    }
}

// Writes the lines of those elements of group g that are picked by their number.
fn print_group<F: Fn(u16, u32) -> bool>(
    rt: &impl Print,
    d: Loaded<'_>,
    image: &[u8],
    kept: &Columns,
    g: u16,
    is_picked: &F,
) -> Ending
    requires { F.IsAlwaysCallable is_picked.now }
{
    // as many as an index counts
    for index in 0..u32::try_from(elements_of(d.t, g)).unwrap_or(u32::MAX) {
        if is_picked(g, index) {
            let element = Element {
                object: (g / PARTS) as u32,
                part: (g % PARTS) as u8,
                index,
            };
            print_line(rt, d, image, kept, element)?;
        }
    }
    Ok(())
}

// Writes the lines of those elements that are picked by group and number.
fn print_lines<F: Fn(u16, u32) -> bool>(
    rt: &impl Print,
    d: Loaded<'_>,
    image: &[u8],
    kept: &Columns,
    is_picked: F,
) -> Ending
    requires { F.IsAlwaysCallable is_picked }
{
    for g in 0..count_of(d.t, GROUP) {
        print_group(rt, d, image, kept, g, &is_picked)?;
    }
    Ok(())
}

// Writes the whole listing of the kept list.
pub fn print_listing(rt: &impl Print, d: Loaded<'_>, image: &[u8], kept: &Columns) -> Ending {
    println!(rt; "name\tpart\tindex\traw\tphysical")?;
    print_lines(rt, d, image, kept, |_, _| true)
}

// Writes the lines that a write of element i of group g worked out afresh: those that share a byte with it.
pub fn print_afresh(
    rt: &impl Print,
    d: Loaded<'_>,
    image: &[u8],
    kept: &Columns,
    g: u16,
    i: u32,
) -> Ending {
    let lo = place_of(d.t, g, i);
    let many = bytes_of(d.t, g) as u64;
    print_lines(rt, d, image, kept, |h, k| touches(d.t, lo, many, h, k))
}
