// The line of the description that a load's refusal is about, as much of it as a terminal shows, with a mark under the place.
ghost use Rattle.std.specs.Prelude.{◌≤◌};

use lines::field::line_end;
use std::{fmt, io};

// The most bytes that are shown of a line.
const SHOWN: usize = 120;

// A place that stands further on in its line is shown with so many bytes before it.
const FAR: usize = 90;

const BEFORE: usize = 60;

// Bytes as they can be shown: each by itself, or by a point where it is no printing one.
#[derive(Clone, Copy)]
struct Shown<'a>(&'a [u8]);

impl fmt::Display for Shown<'_> {
    fn fmt<W: fmt::Write>(&self, f: &mut fmt::Formatter<W>) -> fmt::Result {
        for b in self.0 {
            f.write_char(if (b' '..=b'~').contains(b) {
                *b as char
            } else {
                '.'
            })?;
        }
        Ok(())
    }
}

// How many bytes of a line are left out where so many stand before the place.
fn left_out(before: usize) -> usize
    ensures { result ≤ before }
{
    if before < FAR {
        return 0;
    }
    before - BEFORE
}

// The part of x from a up to e, as far as there is one and it is shown.
fn shown_part(x: &[u8], a: usize, e: usize) -> Shown<'_> {
    let part = x.get(a..e).unwrap_or(b"");
    Shown(part.get(..SHOWN).unwrap_or(part))
}

// Writes the line that has the place, which stands in its column, and a mark below it.
pub fn say_excerpt(rt: &impl Print, x: &[u8], place: usize, column: usize) -> io::Result<()> {
    let Some(before) = column.checked_sub(1) else {
        return Ok(());
    };
    let Some(start) = place.checked_sub(before) else {
        return Ok(());
    };
    let skipped = left_out(before);
    let blanks = before - skipped;
    println!(rt; "{}", shown_part(x, start + skipped, line_end(x, start)))?;
    println!(rt; "{:blanks$}^", "")
}
