// Loads the descriptions of its input and prints a line for each: how much its tables hold, or its refusal's number and place.
// A line `====` parts two of them. Each starts with a line of its own: the base address, a space, the image in hex. All are of edition 1.
#![tactic(auto)]

use cases::{bytes_of, number_at, split_once, split_part};
use convert::edition::EDITION_ONE;
use load::load;
use std::io;
use std::io::Read;
use tables::form::{ENTRY, HEAD, METHOD, OBJECT, TABLE, count_of, slot_of};
use tables::setting::Setting;

// The most bytes of all descriptions together, and of one image.
const TEXT_BYTES: usize = 65536;

const IMAGE_BYTES: usize = 64;

// How many cells the tables and the work room take: ROOM of tables and of grammar.
const TABLE_CELLS: usize = 36617;

const WORK_CELLS: usize = 42578;

// Writes what accepted tables hold.
fn print_accepted(rt: &impl Print, t: &[u64]) -> io::Result<()> {
    print!(rt;
        " accepted objects {} methods {} tables {} entries {} elements {}",
        count_of(t, OBJECT),
        count_of(t, METHOD),
        count_of(t, TABLE),
        count_of(t, ENTRY),
        slot_of(t, HEAD, 0, 2)
    )
}

// Loads description n with its image and writes its line.
fn print_loaded(rt: &impl Print, x: &[u8], image: &[u8], base: u32, n: usize) -> io::Result<()> {
    let mut t = [0u64; TABLE_CELLS];
    let mut work = [0u64; WORK_CELLS];
    print!(rt; "{n}")?;
    let s = Setting {
        base,
        edition: EDITION_ONE,
    };
    match load(x, image, s, &mut t, &mut work) {
        Ok(()) => print_accepted(rt, &t)?,
        Err(r) => print!(rt; " refused {} at {}", r.no, r.place)?,
    }
    println!(rt)
}

// Loads one description with the line before it, and writes its line.
fn print_block(rt: &impl Print, s: &[u8], n: usize) -> io::Result<()> {
    let Some((line, x)) = split_once(s, b"\n") else {
        return Ok(());
    };
    let Some((base, hex)) = split_once(line, b" ") else {
        return Ok(());
    };
    let mut room = [0u8; IMAGE_BYTES];
    let image = bytes_of(hex, &mut room);
    print_loaded(rt, x, image, number_at(base), n)
}

// Writes the lines of all descriptions.
fn print_all(rt: &impl Print, s: &[u8]) -> io::Result<()> {
    let mut rest = s;
    for n in 1..usize::MAX {
        if rest.is_empty() {
            break;
        }
        let (part, after) = split_part(rest).unwrap_or((rest, b""));
        print_block(rt, part, n)?;
        rest = after;
    }
    Ok(())
}

fn main(rt: HostRuntime) -> io::Result<()> {
    let mut text = Vec::new(rt.alloc());
    rt.reader().take(TEXT_BYTES as u64).read_to_end(&mut text)?;
    print_all(&rt, text.as_slice())
}
