// Loads one description, makes its list, applies the write requests that follow it, and prints each answer, the listing of the kept list,
// and the image in hex. The description starts with a line of its own: the base address, a space, the image in hex; a line `====` ends it.
// A request is a line of five words parted by single spaces: object number, part (x, y, v), index, raw or phys, the value.
#![tactic(auto)]

use cases::{bytes_of, number_at, split_once, split_part};
use convert::edition::EDITION_ONE;
use list::make::make_list;
use list::write::{write_physical, write_raw};
use listings::whole::listing;
use load::load;
use look::refusal::CallRefusal;
use std::io;
use std::io::Read;
use tables::setting::Setting;

// The most bytes of the input and of the listing, the bytes of the image; how many lines the list has room for.
const TEXT_BYTES: usize = 32768;

const IMAGE_BYTES: usize = 32;

const OUT_BYTES: usize = 16384;

const LINES: usize = 64;

// How many cells the tables and the work room take: ROOM of tables and of grammar.
const TABLE_CELLS: usize = 36617;

const WORK_CELLS: usize = 42578;

// A description that was loaded: its text, the base address, and its tables.
#[derive(Clone, Copy)]
struct Loaded<'a> {
    x: &'a [u8],
    base: u32,
    t: &'a [u64],
}

// The four columns of the kept list.
#[derive(Drop)]
struct Columns {
    raw: [i64; LINES],
    state: [u8; LINES],
    first: [i64; LINES],
    second: [i64; LINES],
}

impl Columns {
    // Columns of zeros.
    fn zeros() -> Columns {
        Columns {
            raw: [0; LINES],
            state: [0; LINES],
            first: [0; LINES],
            second: [0; LINES],
        }
    }
}

// A part's number; 3 for a word that is no part.
fn part_of(word: &[u8]) -> u8 {
    match word {
        b"x" => 0,
        b"y" => 1,
        b"v" => 2,
        _ => 3,
    }
}

// Writes a request's number and its answer.
fn print_answer(rt: &impl Print, n: usize, r: Result<(), CallRefusal>) -> io::Result<()> {
    match r {
        Ok(()) => println!(rt; "{n} ok"),
        Err(r) => println!(rt; "{n} refused {}", r.number()),
    }
}

// A request: the element, whether its value is a raw number, and the value.
#[derive(Clone, Copy)]
struct Request<'a> {
    object: u32,
    part: u8,
    index: u32,
    is_raw: bool,
    value: &'a [u8],
}

// The request of one line; a word that is missing is empty.
fn request_of(line: &[u8]) -> Request<'_> {
    let mut words = line.splitn(5, |b| *b == b' ');
    Request {
        object: number_at(words.next().unwrap_or(b"")),
        part: part_of(words.next().unwrap_or(b"")),
        index: number_at(words.next().unwrap_or(b"")),
        is_raw: words.next().unwrap_or(b"").starts_with(b"r"),
        value: words.next().unwrap_or(b""),
    }
}

// Makes the list of an image.
fn make(d: Loaded<'_>, image: &[u8], kept: &mut Columns) -> Result<(), CallRefusal> {
    make_list(
        d.x,
        image,
        d.base,
        d.t,
        &mut kept.raw,
        &mut kept.state,
        &mut kept.first,
        &mut kept.second,
    )
}

// Carries out the request of one line on the image and the list.
fn apply(
    d: Loaded<'_>,
    image: &mut [u8],
    kept: &mut Columns,
    line: &[u8],
) -> Result<(), CallRefusal> {
    let Request {
        object,
        part,
        index,
        is_raw,
        value,
    } = request_of(line);
    let (raw, state) = (&mut kept.raw, &mut kept.state);
    let (first, second) = (&mut kept.first, &mut kept.second);
    if is_raw {
        let number = number_at(value) as i64;
        return write_raw(
            d.x, image, d.base, d.t, raw, state, first, second, object, part, index, number,
        );
    }
    write_physical(
        d.x, image, d.base, d.t, raw, state, first, second, object, part, index, value,
    )
}

// Applies the requests, a line each, and writes each answer.
fn apply_all(
    rt: &impl Print,
    d: Loaded<'_>,
    image: &mut [u8],
    kept: &mut Columns,
    q: &[u8],
) -> io::Result<()> {
    for (n, line) in (1..).zip(q.split_inclusive(|b| *b == b'\n')) {
        let r = apply(d, image, kept, line.strip_suffix(b"\n").unwrap_or(line));
        print_answer(rt, n, r)?;
    }
    Ok(())
}

// Writes the listing of the kept list.
fn print_listing(rt: &impl Print, d: Loaded<'_>, image: &[u8], kept: &Columns) -> io::Result<()> {
    let mut out = [0u8; OUT_BYTES];
    match listing(
        d.x,
        image,
        d.base,
        d.t,
        &kept.raw,
        &kept.state,
        &kept.first,
        &kept.second,
        &mut out,
    ) {
        Ok(n) => rt.write_all(out.get(..n).unwrap_or(b"")),
        Err(r) => println!(rt; "{} refused", r.number()),
    }
}

// Writes bytes in hex.
fn print_hex(rt: &impl Print, s: &[u8]) -> io::Result<()> {
    for b in s {
        print!(rt; "{b:02x}")?;
    }
    println!(rt)
}

// Makes a list with a column that is too short: 20.
fn run_short(rt: &impl Print, d: Loaded<'_>, image: &[u8]) -> io::Result<()> {
    let mut kept = Columns::zeros();
    let short = make_list(
        d.x,
        image,
        d.base,
        d.t,
        &mut kept.raw,
        &mut kept.state,
        &mut kept.first,
        &mut kept.second[..1],
    );
    print_answer(rt, 0, short)
}

// Makes a list with tables of zeros: 22.
fn run_damaged(rt: &impl Print, d: Loaded<'_>, image: &[u8]) -> io::Result<()> {
    let zeros = [0u64; TABLE_CELLS];
    let damaged = make(Loaded { t: &zeros, ..d }, image, &mut Columns::zeros());
    print_answer(rt, 0, damaged)
}

// Makes the list, writes the listing, applies the requests, and writes listing and image after them.
fn run(rt: &impl Print, d: Loaded<'_>, image: &mut [u8], q: &[u8]) -> io::Result<()> {
    let mut kept = Columns::zeros();
    let made = make(d, image, &mut kept);
    print_answer(rt, 0, made)?;
    print_listing(rt, d, image, &kept)?;
    apply_all(rt, d, image, &mut kept, q)?;
    print_listing(rt, d, image, &kept)?;
    print_hex(rt, image)
}

// Loads the description and runs the requests that follow it.
fn run_loaded(rt: &impl Print, q: &[u8], x: &[u8], image: &mut [u8], base: u32) -> io::Result<()> {
    let mut t = [0u64; TABLE_CELLS];
    let mut work = [0u64; WORK_CELLS];
    let s = Setting {
        base,
        edition: EDITION_ONE,
    };
    if let Err(r) = load(x, image, s, &mut t, &mut work) {
        return println!(rt; "refused {} at {}", r.no, r.place);
    }
    let d = Loaded { x, base, t: &t };
    run_short(rt, d, image)?;
    run_damaged(rt, d, image)?;
    run(rt, d, image, q)
}

// Takes the description's first line apart.
fn run_all(rt: &impl Print, s: &[u8]) -> io::Result<()> {
    let Some((part, q)) = split_part(s) else {
        return Ok(());
    };
    let (line, x) = split_once(part, b"\n").unwrap_or((part, b""));
    let (base, hex) = split_once(line, b" ").unwrap_or((line, b""));
    let mut image = [0u8; IMAGE_BYTES];
    bytes_of(hex, &mut image);
    run_loaded(rt, q, x, &mut image, number_at(base))
}

fn main(rt: HostRuntime) -> io::Result<()> {
    let mut text = Vec::new(rt.alloc());
    rt.reader().take(TEXT_BYTES as u64).read_to_end(&mut text)?;
    run_all(&rt, text.as_slice())
}
