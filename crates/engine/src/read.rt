// Reading a description from its start, a token a step.
ghost use Rattle.std.specs.Prelude.{◌≡◌, ◌+◌, length};
ghost use Rattle.grammar.specs.Move.{view_in, moved};
ghost use Rattle.grammar.specs.Read.{on_piece, finishing, move};
ghost use Rattle.grammar.specs.Out.{out_of, read_from_in, read_in, read_into};

use crate::keyword::{after_begin, after_end, item};
use grammar::parameter::{BEGIN, END, NAME, NUMBER, TEXT, refuse, taken};
use grammar::state::{BEGUN, ENDED, ITEMS, Move, OVER, State};
use grammar::view::{FILE, ROOM, act_on, section_of};
use text::cursor::{Cursor, Refusal, Token};

// A piece, by what is expected.
fn on_piece(x: &[u8], t: &[u64], s: State, k: u8, a: usize, e: usize) -> Result<Move, Refusal>
    ensures { moved result ≡ on_piece x.now (view_in t.now) s k a e }
{
    let mode = s.mode;
    if mode == OVER {
        return refuse(3, x, k, a, e);
    }
    if mode == BEGUN {
        return after_begin(x, t, s, k, a, e);
    }
    if mode == ENDED {
        return after_end(x, s, k, a, e);
    }
    if s.param == 0 {
        return item(x, t, s, k, a, e);
    }
    taken(x, t, s, k, a, e)
}

// The text's end: it may end after PROJECT's end.
fn on_finish(s: State, place: usize) -> Result<Move, Refusal>
    ensures { moved result ≡ finishing s place }
{
    if s.mode == OVER {
        return Ok(Move::Over);
    }
    Err(Refusal { no: 3, place })
}

// The next token from a place on.
fn move_of(x: &[u8], t: &[u64], s: State, at: usize) -> Result<Move, Refusal>
    ensures { moved result ≡ move x.now (view_in t.now) s at }
{
    let c = Cursor { at };
    match c.token(x)? {
        Token::Name { start, next } => on_piece(x, t, s, NAME, start, next.at),
        Token::Text { start, next } => on_piece(x, t, s, TEXT, start, next.at),
        Token::Number { start, next } => on_piece(x, t, s, NUMBER, start, next.at),
        Token::Begin { start, next } => on_piece(x, t, s, BEGIN, start, next.at),
        Token::End { start, next } => on_piece(x, t, s, END, start, next.at),
        Token::Finish { place } => on_finish(s, place),
    }
}

// All tokens, from the text's start.
fn read_on(x: &[u8], t: &mut [u64], first: State) -> Result<(), Refusal>
    ensures { out_of result t.new ≡ read_from_in (length x.now + 1) x.now 0 first t.old }
{
    let mut s = first;
    let mut at: usize = 0;
    for i in 0..x.len() + 1 {
        match move_of(x, t, s, at)? {
            Move::Went { next, state, act } => {
                act_on(t, act);
                s = state;
                at = next.at;
            }
            Move::Over => return Ok(()),
        }
    }
    Err(Refusal {
        no: 3,
        place: x.len(),
    })
}

// The file's record, and then all tokens.
fn read_all(x: &[u8], t: &mut [u64]) -> Result<(), Refusal>
    ensures { out_of result t.new ≡ read_in x.now t.old }
{
    records::add(t, section_of(FILE));
    read_on(x, t, State::new(ITEMS, FILE, 0, 0))
}

// Reads a description into records; a refusal leaves zeros, and a slice that is too short stays as it is.
pub fn read(x: &[u8], t: &mut [u64]) -> Result<(), Refusal>
    ensures { out_of result t.new ≡ read_into x.now t.old }
{
    if t.len() < (ROOM as usize) {
        return Err(Refusal { no: 20, place: 0 });
    }
    records::clear(t);
    if let Err(refusal) = read_all(x, t) {
        records::clear(t);
        return Err(refusal);
    }
    Ok(())
}
