// Document 01's points P1 to P10, run through the proved functions and printed, a point to a line.
#![tactic(auto)]

use asked::asked_raw;
use cell::kind::{SWORD, UBYTE, UWORD};
use cell::raw::{fits_raw, read_raw, write_raw};
use cell::size::size;
use convert::asked::RawRefusal;
use convert::edition::{EDITION_ONE, EDITION_TWO};
use convert::fraction::{NUMBER, Physical};
use convert::method::{Coefficients, NoConversion, identical, linear, rat_func};
use decimals::decimal_of;
use fraction::fraction::fraction_of;
use judge::judge::judge_object;
use number::decimal::Decimal;
use place::order::{Aligns, Entry, Layout};
use place::rules::{Axis, Need};
use place::walk::Ground;
use std::io;

// The decimal that a text writes, 0 where it writes none.
fn decimal(s: &[u8]) -> Decimal {
    decimal_of(s).unwrap_or(Decimal {
        negative: false,
        whole: 0,
        tens: 0,
    })
}

// Prints a whole number.
fn print_whole(rt: &impl Print, n: i64) -> io::Result<()> {
    if n < 0 {
        rt.print("-")?;
    }
    rt.print(size(n))
}

// Prints a refusal's number.
fn print_refusal(rt: &impl Print, no: u8) -> io::Result<()> {
    print!(rt; " refused {no}")
}

// Prints a fraction, or `-` for none.
fn print_physical(rt: &impl Print, p: Physical) -> io::Result<()> {
    rt.print(" ")?;
    if p.state == NUMBER {
        print_whole(rt, p.first)?;
        rt.print("/")?;
        print_whole(rt, p.second)
    } else {
        rt.print("-")
    }
}

// Prints what a raw number shows by a conversion.
fn shown(rt: &impl Print, answer: Result<Coefficients, NoConversion>, raw: i64) -> io::Result<()> {
    match answer {
        Ok(k) => print_physical(rt, fraction_of(k, raw)),
        Err(refusal) => print_refusal(rt, refusal.number()),
    }
}

// The coefficients of a conversion, those of IDENTICAL where it is refused.
fn coefficients(answer: Result<Coefficients, NoConversion>) -> Coefficients {
    answer.unwrap_or(identical())
}

// Prints which raw number an asked value stores by an edition.
fn stored(
    rt: &impl Print,
    edition: u32,
    k: Coefficients,
    kind: u64,
    asked: &[u8],
) -> io::Result<()> {
    let answer = asked_raw(
        edition as u64,
        asked,
        decimal(b"-1000"),
        decimal(b"1000"),
        k,
        kind,
        0,
    );
    match answer {
        Ok(raw) => {
            rt.print(" ")?;
            print_whole(rt, raw)
        }
        Err(refusal) => print_refusal(rt, refusal.number()),
    }
}

// Prints an address or a word in hex.
fn print_address(rt: &impl Print, at: u64) -> io::Result<()> {
    print!(rt; " 0x{at:04x}")
}

// Prints the word that a raw write leaves of a word, given by its high and its low byte.
fn left(rt: &impl Print, high: u8, low: u8, mask: u64, raw: i64) -> io::Result<()> {
    let mut image = [high, low];
    if fits_raw(UWORD, mask, raw) {
        write_raw(&mut image, 0, UWORD, true, mask, raw);
        print_address(rt, size(read_raw(&image, 0, UWORD, true, 0)))
    } else {
        print_refusal(rt, RawRefusal::NoFit.number())
    }
}

// P1: COEFFS 0 1000 0 0 0 1.
fn first() -> Result<Coefficients, NoConversion> {
    rat_func(
        decimal(b"1000"),
        decimal(b"0"),
        decimal(b"0"),
        decimal(b"1"),
    )
}

// P4: COEFFS 0 0 60 0 1 0.
fn fourth() -> Result<Coefficients, NoConversion> {
    rat_func(decimal(b"0"), decimal(b"60"), decimal(b"1"), decimal(b"0"))
}

// A part of a layout.
fn part(position: u16, kind: u64) -> Entry {
    Entry {
        present: true,
        position: position,
        kind: kind,
    }
}

// A part that a layout has not.
fn no_part() -> Entry {
    Entry {
        present: false,
        position: 0,
        kind: 0,
    }
}

// What a CURVE needs: an axis of at most 256 points, and values.
fn curve() -> Need {
    Need {
        values: true,
        x: Axis {
            stored: true,
            most: 256,
            points: 0,
        },
        y: Axis {
            stored: false,
            most: 1,
            points: 1,
        },
    }
}

// Prints where P10's CURVE has its axis and its values in an image from 0x1000 on, and how many points.
fn stands(rt: &impl Print, image: &[u8]) -> io::Result<()> {
    let layout = Layout {
        values: part(3, UBYTE),
        x: part(2, UWORD),
        y: no_part(),
        nx: part(1, UBYTE),
        ny: no_part(),
    };
    let ground = Ground {
        address: 0x1001,
        base: 0x1000,
        first: false,
        aligns: Aligns {
            byte: 0,
            word: 0,
            long: 0,
        },
    };
    let answer = judge_object(image, ground, curve(), layout, 0);
    match answer {
        Ok(s) => {
            print_address(rt, s.places.x)?;
            print_address(rt, s.places.values)?;
            rt.print(" ")?;
            rt.print(s.places.cx)
        }
        Err(r) => print_refusal(rt, r.number()),
    }
}

// P1 to P3: a slope and an offset.
fn show_linear(rt: &impl Print) -> io::Result<()> {
    rt.print("P1")?;
    shown(rt, first(), 11800)?;
    rt.print("\nP2")?;
    shown(rt, linear(decimal(b"0.001"), decimal(b"0")), 11800)?;
    rt.print("\nP3")?;
    shown(rt, linear(decimal(b"0.5"), decimal(b"-40")), 255)
}

// P4 and P5: a divisor, and a method that is refused.
fn show_divisor(rt: &impl Print) -> io::Result<()> {
    rt.print("\nP4")?;
    shown(rt, fourth(), 4)?;
    shown(rt, fourth(), 0)?;
    rt.print("\nP5")?;
    shown(
        rt,
        rat_func(decimal(b"2"), decimal(b"0"), decimal(b"1"), decimal(b"0")),
        1,
    )
}

// P6: the nearest raw number.
fn show_nearest(rt: &impl Print) -> io::Result<()> {
    rt.print("\nP6")?;
    stored(rt, EDITION_ONE, coefficients(first()), UWORD, b"11.8005")?;
    stored(rt, EDITION_ONE, coefficients(first()), SWORD, b"-0.0005")?;
    rt.print(", in edition 2")?;
    stored(rt, EDITION_TWO, coefficients(first()), UWORD, b"11.8005")?;
    stored(rt, EDITION_TWO, coefficients(first()), SWORD, b"-0.0005")
}

// P7 to P9: masks and byte orders.
fn show_bytes(rt: &impl Print) -> io::Result<()> {
    rt.print("\nP7 ")?;
    print_whole(rt, read_raw(b"\x12\xA7", 0, UWORD, true, 0x00F0))?;
    left(rt, 0x12, 0xA7, 0x00F0, 3)?;
    left(rt, 0x12, 0xA7, 0x00F0, 16)?;
    rt.print("\nP8")?;
    left(rt, 0x00, 0x00, 0x0005, 5)?;
    left(rt, 0x00, 0x00, 0x0005, 2)?;
    rt.print("\nP9 ")?;
    print_whole(rt, read_raw(b"\x2E\x18", 0, UWORD, true, 0))?;
    rt.print(" ")?;
    print_whole(rt, read_raw(b"\x18\x2E", 0, UWORD, false, 0))
}

fn main(rt: HostRuntime) -> io::Result<()> {
    show_linear(&rt)?;
    show_divisor(&rt)?;
    show_nearest(&rt)?;
    show_bytes(&rt)?;
    rt.print("\nP10")?;
    stands(&rt, b"\x00\x03\x00\x00\x00\x00\x00\x00\x00\x00\x00")?;
    stands(&rt, b"\x00\x03\x00\x00\x00\x00\x00\x00\x00\x00")?;
    rt.print("\n")
}
