// Bytes of a text: single ones, two side by side, and a part that spells a word.
ghost use Rattle.std.specs.Prelude.{◌≡◌, ◌&&◌, ◌||◌, not, ◌+◌, ◌-◌, ◌<◌, ◌^◌, eqb, leb, get_or, false};
ghost use Rattle.text.specs.Bytes.{byte, is_blank, is_allowed, is_letter, is_digit, starts_name, in_name, starts_number, pair_at, same_for, same_part};

// The byte at a place, 0 past the end.
pub fn byte_at(s: &[u8], at: usize) -> u8
    ensures { result ≡ byte s.now at }
{
    s.get(at).copied().unwrap_or(0)
}

// Whether a byte is a blank.
#[tactic(auto, unfolding(crate::specs::Bytes::is_blank))]
pub fn is_blank(b: u8) -> bool
    ensures { result ≡ is_blank b }
{
    matches!(b, b' ' | b'\t' | b'\r' | b'\n')
}

// Whether a byte may stand outside strings, comments and blanks.
#[tactic(auto, unfolding(crate::specs::Bytes::is_allowed))]
pub fn is_allowed(b: u8) -> bool
    ensures { result ≡ is_allowed b }
{
    b.is_ascii_graphic()
}

// For each byte whether it goes on a run whatever stands after it: a printed one, but for the quote and the slash. A table, since every
// byte of a run is looked up.
static INNER: [bool; 256] = [
    false, false, false, false, false, false, false, false, false, false, false, false, false,
    false, false, false, false, false, false, false, false, false, false, false, false, false,
    false, false, false, false, false, false, false, true, false, true, true, true, true, true,
    true, true, true, true, true, true, true, false, true, true, true, true, true, true, true,
    true, true, true, true, true, true, true, true, true, true, true, true, true, true, true, true,
    true, true, true, true, true, true, true, true, true, true, true, true, true, true, true, true,
    true, true, true, true, true, true, true, true, true, true, true, true, true, true, true, true,
    true, true, true, true, true, true, true, true, true, true, true, true, true, true, true, true,
    true, true, true, true, true, true, true, true, false, false, false, false, false, false,
    false, false, false, false, false, false, false, false, false, false, false, false, false,
    false, false, false, false, false, false, false, false, false, false, false, false, false,
    false, false, false, false, false, false, false, false, false, false, false, false, false,
    false, false, false, false, false, false, false, false, false, false, false, false, false,
    false, false, false, false, false, false, false, false, false, false, false, false, false,
    false, false, false, false, false, false, false, false, false, false, false, false, false,
    false, false, false, false, false, false, false, false, false, false, false, false, false,
    false, false, false, false, false, false, false, false, false, false, false, false, false,
    false, false, false, false, false, false, false, false, false, false, false, false, false,
    false, false, false, false, false, false,
];

// What a table says of a byte; false where it says nothing.
fn holds(table: &[bool], b: u8) -> bool
    ensures { result ≡ get_or table.now b false }
{
    table.get(b as usize).copied().unwrap_or(false)
}

// Whether a byte goes on a run whatever stands after it.
pub fn is_inner(b: u8) -> bool
    ensures { result ≡ (is_allowed b && not (eqb b 34) && not (eqb b 47)) }
{
    holds(&INNER, b)
}

// Whether a byte is a letter.
#[tactic(auto, unfolding(crate::specs::Bytes::is_letter))]
pub fn is_letter(b: u8) -> bool
    ensures { result ≡ is_letter b }
{
    b.is_ascii_alphabetic()
}

// Whether a byte is a decimal digit.
#[tactic(auto, unfolding(crate::specs::Bytes::is_digit))]
pub fn is_digit(b: u8) -> bool
    ensures { result ≡ is_digit b }
{
    b.is_ascii_digit()
}

// Whether a name may start with a byte.
#[tactic(auto, unfolding(crate::specs::Bytes::starts_name))]
pub fn starts_name(b: u8) -> bool
    ensures { result ≡ starts_name b }
{
    is_letter(b) || b == b'_'
}

// Whether a name may go on with a byte; most of its bytes are letters.
#[tactic(auto, unfolding(crate::specs::Bytes::in_name))]
pub fn in_name(b: u8) -> bool
    ensures { result ≡ in_name b }
{
    starts_name(b) || is_digit(b) || matches!(b, b'.' | b'[' | b']')
}

// Whether a number run starts with a byte.
#[tactic(auto, unfolding(crate::specs::Bytes::starts_number))]
pub fn starts_number(b: u8) -> bool
    ensures { result ≡ starts_number b }
{
    is_digit(b) || matches!(b, b'+' | b'-' | b'.')
}

// Whether the two bytes a and b stand at a place.
#[tactic(auto, unfolding(crate::specs::Bytes::pair_at))]
pub fn pair_at(s: &[u8], at: usize, a: u8, b: u8) -> bool
    ensures { result ≡ pair_at s.now at a b }
{
    s.get(at) == Some(&a) && s.get(at + 1) == Some(&b)
}

// The number before n, 0 before 0.
pub fn one_before(n: usize) -> usize
    ensures { result ≡ n - 1 }
{
    n.saturating_sub(1)
}

// Whether the bytes of s from k up to e are n, the last of them b.
pub fn is_like(s: &[u8], k: usize, e: usize, n: usize, b: u8) -> bool
    ensures { result ≡ (leb k e && eqb (e - k) n && (eqb n 0 || eqb (byte s.now (e - 1)) b)) }
{
    k <= e && e - k == n && (n == 0 || byte_at(s, e - 1) == b)
}

// Whether n bytes of s from k on are those of w from j on, the last of them compared first, since long names often begin alike.
// No slices are compared: past a text's end each byte is 0 (`same_for` of specs), and a slice has none there.
fn same_for(s: &[u8], k: usize, w: &[u8], j: usize, n: usize) -> bool
    requires { (k + n < 2 ^ 64) × (j + n < 2 ^ 64) }
    ensures { result ≡ same_for n s.now k w.now j }
{
    for i in (0..n).rev() {
        if byte_at(s, k + i) != byte_at(w, j + i) {
            return false;
        }
    }
    true
}

// Whether the bytes of s from k up to e are those of w from j up to f.
#[tactic(auto, unfolding(crate::specs::Bytes::same_part))]
pub fn same_part(s: &[u8], k: usize, e: usize, w: &[u8], j: usize, f: usize) -> bool
    ensures { result ≡ same_part s.now k e w.now j f }
{
    k <= e && j <= f && e - k == f - j && same_for(s, k, w, j, e - k)
}
