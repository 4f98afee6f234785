// A value and a line, put into a buffer from a place on.
ghost use Rattle.std.specs.Prelude.{◌≡◌, [], ◌∷◌, ◌++◌, ◌+◌, ◌≤◌, ◌<◌, ◌^◌, length};
ghost use Rattle.print.specs.Print.{figures, signed, slice};
ghost use Rattle.print.specs.Put.{Put};
ghost use Rattle.listing.specs.Print.{physical, letter, line};

use cell::size::size;
use print::figures::{MINUS, put_byte, put_figures, put_signed};
use print::slice::put_slice;

// What a line's state says.
const NUMBER: u8 = 1;

const TEXT: u8 = 2;

// Puts a fraction, never cancelled.
fn put_fraction(out: &mut [u8], at: usize, n: i64, d: i64) -> usize
    requires { at < 2 ^ 57 }
    ensures { Put at (signed n ++ (47 ∷ signed d)) out.old result out.new × (result ≤ at + 43) }
{
    let e = put_signed(out, at, n);
    let f = put_byte(out, e, b'/');
    put_signed(out, f, d)
}

// Puts a value: a fraction, a text of the description, or a minus for none.
fn put_physical(out: &mut [u8], at: usize, x: &[u8], state: u8, first: i64, second: i64) -> usize
    requires { (at < 2 ^ 57) × (length x.now ≤ 2 ^ 24) }
    ensures { Put at (physical x.now state first second) out.old result out.new × (result ≤ at + (2 ^ 24 + 43)) }
{
    match state {
        NUMBER => put_fraction(out, at, first, second),
        TEXT => put_slice(out, at, x, size(first) as usize, size(second) as usize),
        _ => put_byte(out, at, MINUS),
    }
}

// The letter of a part.
fn letter_of(part: u8) -> u8
    ensures { result ≡ letter part }
{
    match part {
        0 => b'x',
        1 => b'y',
        _ => b'v',
    }
}

// Puts the part's letter and the index, each after a tab.
fn put_index(out: &mut [u8], at: usize, part: u8, index: u32) -> usize
    requires { at < 2 ^ 57 }
    ensures { Put at (9 ∷ letter part ∷ 9 ∷ figures index) out.old result out.new × (result ≤ at + 23) }
{
    let b = put_byte(out, at, b'\t');
    let c = put_byte(out, b, letter_of(part));
    let d = put_byte(out, c, b'\t');
    put_figures(out, d, index as u64)
}

// Puts the raw number and the value, each after a tab, and the line's end.
fn put_values(
    out: &mut [u8],
    at: usize,
    x: &[u8],
    raw: i64,
    state: u8,
    first: i64,
    second: i64,
) -> usize
    requires { (at < 2 ^ 56) × (length x.now ≤ 2 ^ 24) }
    ensures { Put at (9 ∷ signed raw ++ (9 ∷ physical x.now state first second ++ (10 ∷ []))) out.old result out.new × (result ≤ at + (2 ^ 24 + 67)) }
{
    let b = put_byte(out, at, b'\t');
    let c = put_signed(out, b, raw);
    let d = put_byte(out, c, b'\t');
    let e = put_physical(out, d, x, state, first, second);
    put_byte(out, e, b'\n')
}

// Puts a line: a name, a part and an index, a raw number and a value.
pub fn put_line(
    out: &mut [u8],
    at: usize,
    x: &[u8],
    a: usize,
    e: usize,
    part: u8,
    index: u32,
    raw: i64,
    state: u8,
    first: i64,
    second: i64,
) -> usize
    requires { (at < 2 ^ 55) × (length x.now ≤ 2 ^ 24) }
    ensures { Put at (line x.now (slice x.now a e) part index raw (physical x.now state first second)) out.old result out.new × (result ≤ at + 2 ^ 26) }
{
    let b = put_slice(out, at, x, a, e);
    let c = put_index(out, b, part, index);
    put_values(out, c, x, raw, state, first, second)
}
