// What a refused write says: at 16, which of the two values lies outside the limits.
use console::ending::Stop;
use console::message::{refused, say_refused};
use convert::asked::RawRefusal;
use convert::fraction::{NUMBER, Physical};
use look::meaning::means;
use std::fmt::Display;
use std::io;
use wanted::wanted::raw_rounded;

// Says that a value is outside the limits, and which.
fn say_outside(rt: &impl Print, what: impl Display + Drop) -> io::Result<()> {
    say_refused(rt, RawRefusal::OutsideLimits.number(), what)
}

// Says that what would be stored is outside: the value that it means, or the number where it means none.
fn say_stored(rt: &impl Print, p: Physical, raw: i64) -> io::Result<()> {
    if p.state == NUMBER {
        return say_outside(
            rt,
            format_args!(
                "the value that would be stored, {}/{}, is outside the limits",
                p.first, p.second
            ),
        );
    }
    say_outside(
        rt,
        format_args!("the number that would be stored, {raw}, means no value"),
    )
}

// Says why a write of a physical value to group g was refused by 16.
fn say_limits(rt: &impl Print, t: &[u64], g: u16, asked: &[u8]) -> io::Result<()> {
    match raw_rounded(t, g, asked) {
        Ok(raw) => say_stored(rt, means(t, g, raw), raw),
        Err(_) => say_outside(rt, "the asked value is outside the limits"),
    }
}

// Says why a write to group g was refused.
pub fn refused_write(rt: &impl Print, t: &[u64], g: u16, asked: &[u8], no: u8) -> Stop {
    if no == RawRefusal::OutsideLimits.number() {
        return Stop::refused(say_limits(rt, t, g, asked));
    }
    refused(rt, no)
}
