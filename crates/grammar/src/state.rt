// What the reader expects next, what a token writes, and what a token leads to.
ghost use Rattle.std.specs.Prelude.{◌≡◌};
ghost use Rattle.grammar.specs.Move.{state, idle};

use crate::view::NONE;
use text::cursor::Cursor;

// Where a keyword, the word after `/begin`, the word after `/end`, or nothing more is expected:
// numbers and no enum, since taken answers for a state of any mode, as its clause says.
pub const ITEMS: u8 = 0;

pub const BEGUN: u8 = 1;

pub const ENDED: u8 = 2;

pub const OVER: u8 = 3;

// The mode, the code of the open block's word, the number of the next parameter (0: none), how many pairs are left.
#[derive(Clone, Copy)]
pub struct State {
    pub mode: u8,
    pub block: u8,
    pub param: u8,
    pub left: u16,
}

impl State {
    // What is expected next.
    pub fn new(mode: u8, block: u8, param: u8, left: u16) -> State
        ensures { result ≡ state mode block param left }
    {
        State {
            mode,
            block,
            param,
            left,
        }
    }
}

// A record more in section adds; then the first `many` of a, b, c, d in the current record of a section from a slot on.
#[derive(Clone, Copy)]
pub struct Act {
    pub adds: u8,
    pub sec: u8,
    pub slot: u8,
    pub many: u8,
    pub a: u64,
    pub b: u64,
    pub c: u64,
    pub d: u64,
}

impl Act {
    // Nothing is written.
    pub fn nothing() -> Act
        ensures { result ≡ idle }
    {
        Act {
            adds: NONE,
            sec: NONE,
            slot: 0,
            many: 0,
            a: 0,
            b: 0,
            c: 0,
            d: 0,
        }
    }
}

// On, with the next place, what is expected there and what is written; or the text is over.
#[derive(Clone, Copy)]
pub enum Move {
    Went {
        next: Cursor,
        state: State,
        act: Act,
    },
    Over,
}
