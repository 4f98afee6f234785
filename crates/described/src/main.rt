// Reads the descriptions of its input and prints a line for each: how many records it has, or its refusal's number and place.
// A line `====` parts two descriptions; the line ends before and after it belong to it. The last description may have one after it too.
#![tactic(auto)]

use cases::split_part;
use engine::read::read;
use grammar::view::{AXIS, ENTRY, LAYOUT, METHOD, OBJECT, TABLE, count_of};
use std::io;
use std::io::Read;

// The most bytes of all descriptions together.
const TEXT_BYTES: usize = 40960;

// How many cells the records take: grammar's ROOM.
const CELLS: usize = 42578;

// Writes what an accepted description has.
fn print_accepted(rt: &impl Print, t: &[u64]) -> io::Result<()> {
    print!(rt;
        " accepted methods {} tables {} entries {} layouts {} objects {} axes {}",
        count_of(t, METHOD),
        count_of(t, TABLE),
        count_of(t, ENTRY),
        count_of(t, LAYOUT),
        count_of(t, OBJECT),
        count_of(t, AXIS)
    )
}

// Reads description n into lent cells, whatever they hold, and writes its line.
fn print_described(rt: &impl Print, x: &[u8], n: usize, t: &mut [u64]) -> io::Result<()> {
    rt.print(n)?;
    match read(x, t) {
        Ok(()) => print_accepted(rt, t)?,
        Err(r) => print!(rt; " refused {} at {}", r.no, r.place)?,
    }
    println!(rt)
}

// Writes the lines of all descriptions.
fn print_all(rt: &impl Print, s: &[u8]) -> io::Result<()> {
    let mut t = [0u64; CELLS];
    let mut rest = s;
    for n in 1..usize::MAX {
        if rest.is_empty() {
            break;
        }
        let (part, after) = split_part(rest).unwrap_or((rest, b""));
        print_described(rt, part, n, &mut t)?;
        rest = after;
    }
    Ok(())
}

fn main(rt: HostRuntime) -> io::Result<()> {
    let mut text = Vec::new(rt.alloc());
    rt.reader().take(TEXT_BYTES as u64).read_to_end(&mut text)?;
    print_all(&rt, text.as_slice())
}
