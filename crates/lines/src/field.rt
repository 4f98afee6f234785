// A text's lines, and a line's fields, parted by tabs.
ghost use Rattle.std.specs.Prelude.{◌≡◌, ◌≤◌, length, drop, take};
ghost use Rattle.lines.specs.Field.{ends_line, place_from, line_end, field_count, field_of, up_to_tab};

// The byte that parts fields, and the byte that ends a line.
const TAB: u8 = b'\t';

const LF: u8 = b'\n';

// The place of the first byte b at or after a place, or the length.
fn place_from(s: &[u8], from: usize, b: u8) -> usize
    ensures { result ≡ place_from b s.now from }
{
    for i in from..s.len() {
        if s[i] == b {
            return i;
        }
    }
    s.len()
}

// Whether a byte ends a line.
pub fn ends_line(b: &u8) -> bool
    ensures { result ≡ ends_line b.now }
{
    *b == LF
}

// Where the line that a place stands in ends: its LF, or the length.
pub fn line_end(s: &[u8], from: usize) -> usize
    ensures { result ≡ line_end s.now from }
{
    place_from(s, from, LF)
}

// A line without its line end.
pub fn without_end(line: &[u8]) -> &[u8]
    ensures { result.now ≡ take (line_end line.now 0) line.now }
{
    &line[..line_end(line, 0)]
}

// How many fields a line has.
pub fn field_count(s: &[u8]) -> usize
    ensures { result ≡ field_count s.now }
{
    let mut count: usize = 1;
    for &b in s {
        if b == TAB {
            count += 1;
        }
    }
    count
}

// Where field k starts; the length where the line has no such field.
fn field_start(s: &[u8], k: usize) -> usize
    ensures { (up_to_tab (drop result s.now) ≡ field_of k s.now) × (result ≤ length s.now) }
{
    let mut at: usize = 0;
    for _ in 0..k {
        let tab = place_from(s, at, TAB);
        if s.len() <= tab {
            return s.len();
        }
        at = tab + 1;
    }
    at
}

// Field k of a line, from 0; none where the line has no such field.
pub fn field_of(s: &[u8], k: usize) -> &[u8]
    ensures { result.now ≡ field_of k s.now }
{
    let a = field_start(s, k);
    let e = place_from(s, a, TAB);
    &s[a..e]
}
