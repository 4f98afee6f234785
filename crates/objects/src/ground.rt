// The byte order and the alignment words of an object.
ghost use Rattle.std.specs.Prelude.{◌≡◌};
ghost use Rattle.grammar.specs.Move.{view_in};
ghost use Rattle.objects.specs.Object.{word, aligns_of, first_of};

use grammar::view::{FILE, LAYOUT, OBJECT, slot_of};
use place::order::Aligns;
use rows::slots::{
    COMMON_ALIGNMENT_BYTE, COMMON_ALIGNMENT_LONG, COMMON_ALIGNMENT_WORD, COMMON_BYTE_ORDER,
    LAYOUT_ALIGNMENT_BYTE, LAYOUT_ALIGNMENT_LONG, LAYOUT_ALIGNMENT_WORD, OBJECT_BYTE_ORDER,
};
use words::codes::MSB_FIRST;

// The greatest alignment word.
const ALIGNMENT: u64 = 255;

// An alignment word: slot k of layout l, else slot c of the file's record.
fn word_of(t: &[u64], l: u16, k: u16, c: u16) -> u8
    ensures { result ≡ word (view_in t.now) l k c }
{
    let own = slot_of(t, LAYOUT, l, k);
    if own == 0 {
        return slot_of(t, FILE, 0, c).min(ALIGNMENT) as u8;
    }
    own.min(ALIGNMENT) as u8
}

// The alignment words for layout l.
pub fn aligns_of(t: &[u64], l: u16) -> Aligns
    ensures { result ≡ aligns_of (view_in t.now) l }
{
    let byte = word_of(t, l, LAYOUT_ALIGNMENT_BYTE, COMMON_ALIGNMENT_BYTE);
    let word = word_of(t, l, LAYOUT_ALIGNMENT_WORD, COMMON_ALIGNMENT_WORD);
    let long = word_of(t, l, LAYOUT_ALIGNMENT_LONG, COMMON_ALIGNMENT_LONG);
    Aligns { byte, word, long }
}

// Whether object i's byte order is MSB_FIRST: its own, else MOD_COMMON's, else MSB_LAST.
pub fn first_of(t: &[u64], i: u16) -> bool
    ensures { result ≡ first_of (view_in t.now) i }
{
    let own = slot_of(t, OBJECT, i, OBJECT_BYTE_ORDER);
    if own == 0 {
        let common = slot_of(t, FILE, 0, COMMON_BYTE_ORDER);
        return common == (MSB_FIRST as u64);
    }
    own == (MSB_FIRST as u64)
}
