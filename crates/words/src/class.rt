// The class of a word.
ghost use Rattle.std.specs.Prelude.{◌≡◌, map};
ghost use Rattle.words.specs.Class.{class_of, class_at};
ghost use Rattle.words.specs.Row.{kind_in};
ghost use Rattle.words.specs.Told.{told_class};
ghost use Rattle.words.specs.Inner.{told_row};

use crate::of_3_to_8::*;
use crate::of_9_to_13::*;
use crate::of_14_to_28::*;

// What document 01 does with a word, with its code.
#[derive(Clone, Copy)]
pub enum Class {
    TakenBlock(u8),
    TakenPlain(u8),
    TakenChoice(u8),
    SkippedBlock(u8),
    SkippedPlain(u8),
    ListedOnly,
    Unlisted,
}

// The class of a word, looked for among those of its length.
#[tactic(auto, using(crate::proofs::Tables::passing))]
fn among<const N: usize>(word: &[u8], rows: &[([u8; N], Class)]) -> Class
    ensures { told_class result ≡ kind_in (map told_row rows.now) word.now }
{
    for (letters, class) in rows {
        if letters.as_slice() == word {
            return *class;
        }
    }
    Class::Unlisted
}

// The class of a word.
#[tactic(auto, using(crate::proofs::Lengths::by_length), unfolding(crate::specs::Table::word_rows, crate::specs::Row::word, crate::specs::Row::bytes))]
fn class_of_word(word: &[u8]) -> Class
    ensures { told_class result ≡ class_of word.now }
{
    match word.len() {
        3 => among(word, &OF_3),
        4 => among(word, &OF_4),
        5 => among(word, &OF_5),
        6 => among(word, &OF_6),
        7 => among(word, &OF_7),
        8 => among(word, &OF_8),
        9 => among(word, &OF_9),
        10 => among(word, &OF_10),
        11 => among(word, &OF_11),
        12 => among(word, &OF_12),
        13 => among(word, &OF_13),
        14 => among(word, &OF_14),
        15 => among(word, &OF_15),
        16 => among(word, &OF_16),
        17 => among(word, &OF_17),
        18 => among(word, &OF_18),
        19 => among(word, &OF_19),
        20 => among(word, &OF_20),
        21 => among(word, &OF_21),
        22 => among(word, &OF_22),
        23 => among(word, &OF_23),
        24 => among(word, &OF_24),
        28 => among(word, &OF_28),
        _ => Class::Unlisted,
    }
}

// The class of the bytes between two places.
pub fn class_of(s: &[u8], from: usize, to: usize) -> Class
    ensures { told_class result ≡ class_at s.now from to }
{
    s.get(from..to).map_or(Class::Unlisted, class_of_word)
}
