// Prints the tokens of a description that it reads from its input, one to a line: kind, first byte, the place past it, and the token itself.
// A block A2ML or IF_DATA is passed whole, and is one line. It stops at the text's end or at the first refusal.
#![tactic(auto)]

use std::io;
use std::io::Read;
use text::bytes::same_part;
use text::cursor::{Cursor, Refusal, Token};
use text::skip::is_a2ml;

// The most bytes of a description.
const TEXT_BYTES: usize = 32768;

// The levels left below a block of MODULE, which stands at depth 3 of 16.
const LEVELS_LEFT: u8 = 13;

// Writes the line of a token from start up to the cursor past it, and answers that cursor.
fn print_token(
    rt: &impl Print,
    kind: &str,
    s: &[u8],
    start: usize,
    next: Cursor,
) -> io::Result<Option<Cursor>> {
    print!(rt; "{kind} {start} {}", next.at)?;
    if let Some(token) = s.get(start..next.at) {
        rt.print(" ")?;
        rt.write_all(token)?;
    }
    println!(rt)?;
    Ok(Some(next))
}

// Writes the line of a refusal.
fn print_refusal(rt: &impl Print, why: Refusal) -> io::Result<Option<Cursor>> {
    println!(rt; "refused {} {}", why.no, why.place)?;
    Ok(None)
}

// Writes the line of a block that is passed whole, from its `/begin`; its tag stands from `from` up to the cursor.
fn print_block(
    rt: &impl Print,
    s: &[u8],
    begin: usize,
    from: usize,
    to: Cursor,
) -> io::Result<Option<Cursor>> {
    match to.skip_block(s, from, LEVELS_LEFT) {
        Ok(past) => {
            println!(rt; "skipped {begin} {}", past.at)?;
            Ok(Some(past))
        }
        Err(why) => print_refusal(rt, why),
    }
}

// Writes the line of a `/begin`, or of its whole block where A2ML or IF_DATA comes next.
fn print_begin(
    rt: &impl Print,
    s: &[u8],
    begin: usize,
    next: Cursor,
) -> io::Result<Option<Cursor>> {
    let Ok(Token::Name { start, next: to }) = next.token(s) else {
        return print_token(rt, "begin", s, begin, next);
    };
    let end = to.at;
    if is_a2ml(s, start, end) | same_part(s, start, end, b"IF_DATA", 0, 7) {
        return print_block(rt, s, begin, start, to);
    }
    print_token(rt, "begin", s, begin, next)
}

// Writes the line of the text's end.
fn print_finish(rt: &impl Print, place: usize) -> io::Result<Option<Cursor>> {
    println!(rt; "finish {place}")?;
    Ok(None)
}

// Writes the line of the next token.
fn print_next(rt: &impl Print, s: &[u8], c: Cursor) -> io::Result<Option<Cursor>> {
    match c.token(s) {
        Ok(Token::Name { start, next }) => print_token(rt, "name", s, start, next),
        Ok(Token::Text { start, next }) => print_token(rt, "string", s, start, next),
        Ok(Token::Number { start, next }) => print_token(rt, "number", s, start, next),
        Ok(Token::Begin { start, next }) => print_begin(rt, s, start, next),
        Ok(Token::End { start, next }) => print_token(rt, "end", s, start, next),
        Ok(Token::Finish { place }) => print_finish(rt, place),
        Err(why) => print_refusal(rt, why),
    }
}

// Writes the lines of all tokens: each lies ahead of the place it is read from, so there are no more than bytes before the text's end.
fn print_all(rt: &impl Print, s: &[u8]) -> io::Result<()> {
    let mut c = Cursor { at: 0 };
    for _ in 0..=s.len() {
        let Some(next) = print_next(rt, s, c)? else {
            break;
        };
        c = next;
    }
    Ok(())
}

fn main(rt: HostRuntime) -> io::Result<()> {
    let mut text = Vec::new(rt.alloc());
    rt.reader().take(TEXT_BYTES as u64).read_to_end(&mut text)?;
    print_all(&rt, text.as_slice())
}
