// Alignment: "the next absolute address that its alignment divides".
ghost use Rattle.std.specs.Prelude.{◌≡◌, ◌<◌, ◌^◌};
ghost use Rattle.place.specs.Align.{word_for, alignment, aligned};

use cell::kind::Shape;
use place::order::Aligns;

// The alignment word for a size.
fn word_for(a: Aligns, bytes: usize) -> u8
    ensures { result ≡ word_for a bytes }
{
    match bytes {
        1 => a.byte,
        2 => a.word,
        _ => a.long,
    }
}

// A data type's alignment: the word for its size, else its own.
pub fn align_of(a: Aligns, t: Shape) -> u8
    ensures { result ≡ alignment a t }
{
    let word = word_for(a, t.bytes);
    if word == 0 {
        return t.align;
    }
    word
}

// The next address from n on that an alignment divides.
pub fn align_up(align: u8, n: u64) -> u64
    requires { n < 2 ^ 63 }
    ensures { result ≡ aligned align n }
{
    if align == 0 {
        return n;
    }
    n.next_multiple_of(align as u64)
}
