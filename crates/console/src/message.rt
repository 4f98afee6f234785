// What the program says: refusals with number, place, line, column and reason; errors in words.
use crate::ending::{Errors, Stop};
use crate::excerpt::say_excerpt;
use ask::spot::spot_of;
use std::fmt::Display;
use std::io;

// "a lent buffer is too short, text or image too long, or base plus image above 2^32", and "33 for another edition": they have no place in the text.
const SIZES: u8 = 20;

const NO_EDITION: u8 = 33;

// An error that concerns a word, which may be no text.
pub fn error_about(rt: &impl Errors, words: impl Display + Drop, word: &[u8]) -> Stop {
    let _ = eprint!(rt; "error: {words}");
    let _ = rt.write_error(word);
    let _ = eprintln!(rt);
    Stop::Failed
}

// The reason of refusals 1 to 6.
fn early_reason(no: u8) -> &'static str {
    match no {
        1 => "a token that the rules don't allow, or unclosed",
        2 => "a number outside its form",
        3 => "begin and end don't match, too deep, text ends early, or text after PROJECT's end",
        4 => "a keyword that the standard doesn't list",
        5 =>
            "a parameter or needed keyword is missing, of the wrong kind or misplaced, an unused word, or the lower limit is above the upper",
        _ => "a name or a once-only keyword stands twice, or one AXIS_DESCR too many",
    }
}

// The reason of refusals 7 to 13.
fn late_reason(no: u8) -> &'static str {
    match no {
        7 => "a reference that leads nowhere",
        8 => "a capacity is exceeded",
        9 => "a keyword of the standard that is not taken here, or coefficient a or d is not 0",
        10 => "the conversion's b*f equals c*e, or one of its four coefficients is above 10^9",
        11 => "the layout breaks the rules of place or lacks a part, or the mask breaks its rule",
        12 => "a byte outside the image",
        _ => "a stored count is out of range",
    }
}

// The reason of refusals 14 to 22, those of the calls after the load, and of 33.
fn called_reason(no: u8) -> &'static str {
    match no {
        14 => "no such element",
        15 => "the asked value is outside its form, or a physical write under TAB_VERB",
        16 => "the asked value, or the value that would be stored, is outside the limits",
        17 => "no raw value exists",
        18 => "the value doesn't fit the type or the mask",
        19 => "the element shares a byte with a stored count",
        20 => "a lent buffer is too short, text or image too long, or base plus image above 2^32",
        21 => "a MEASUREMENT or READ_ONLY",
        22 => "a lent table breaks the table rule",
        _ => "the edition is neither 1 nor 2",
    }
}

// A refusal's reason in words.
fn reason(no: u8) -> &'static str {
    if no < 7 {
        early_reason(no)
    } else if no < 14 {
        late_reason(no)
    } else {
        called_reason(no)
    }
}

// Says a refusal that has no place in the text, and why: "20 and refusals outside the load have place 0", and 33 too.
pub fn say_refused(rt: &impl Print, no: u8, why: impl Display + Drop) -> io::Result<()> {
    println!(rt; "refused {no} at 0: {why}")
}

// Says a refusal that has no place in the text, with its reason.
pub fn say_refusal(rt: &impl Print, no: u8) -> io::Result<()> {
    say_refused(rt, no, reason(no))
}

// A refusal that has no place in the text.
pub fn refused(rt: &impl Print, no: u8) -> Stop {
    Stop::refused(say_refusal(rt, no))
}

// A refusal 20 for a file that is longer than the program's sizes.
pub fn refused_size(rt: &impl Print, what: &str, most: usize) -> Stop {
    Stop::refused(say_refused(
        rt,
        SIZES,
        format_args!("{what} is longer than {most} bytes, the most that this program takes"),
    ))
}

// Says a load's refusal, with its place as line and column of the description, and that line with a mark under the column.
fn say_refused_load(rt: &impl Print, x: &[u8], no: u8, place: usize) -> io::Result<()> {
    let spot = spot_of(x, place);
    println!(rt;
        "refused {no} at {place} (line {}, column {}): {}",
        spot.line,
        spot.column,
        reason(no)
    )?;
    say_excerpt(rt, x, place, spot.column)
}

// A load's refusal.
pub fn refused_load(rt: &impl Print, x: &[u8], no: u8, place: usize) -> Stop {
    if no == SIZES || no == NO_EDITION {
        return refused(rt, no);
    }
    Stop::refused(say_refused_load(rt, x, no, place))
}
