// The words that the program was called with: `--edition E` may stand before the command, and the others are numbered as if it did not.
use crate::word::Word;
use std::env::FillError;
use std::rt::Env;

// Where `--edition` and its number stand, and how many words they are.
const MARK: usize = 1;

const EDITION: usize = 2;

const MARK_WORDS: usize = 2;

// Whether there is a word at a place, all words counted.
fn has_arg(rt: &impl Env, i: usize) -> bool {
    !matches!(rt.arg(i, &mut []), Err(FillError::NotPresent))
}

// How many words there are, all of them counted.
fn arg_count(rt: &impl Env) -> usize {
    (0..usize::MAX)
        .find(|&i| !has_arg(rt, i))
        .unwrap_or(usize::MAX)
}

// Whether the first word is `--edition`.
pub fn has_edition(rt: &impl Env) -> bool {
    Word::arg(rt, MARK).bytes() == b"--edition".as_slice()
}

// The word behind it.
pub fn edition_at(rt: &impl Env) -> Word {
    Word::arg(rt, EDITION)
}

// The word that stands at a place, the edition not counted.
pub fn word_at(rt: &impl Env, place: u8) -> Word {
    if has_edition(rt) {
        return Word::arg(rt, (place as usize) + MARK_WORDS);
    }
    Word::arg(rt, place as usize)
}

// How many words there are, the program's name among them and the edition not counted.
pub fn word_count(rt: &impl Env) -> usize {
    if has_edition(rt) {
        return arg_count(rt).saturating_sub(MARK_WORDS);
    }
    arg_count(rt)
}
