// What the programs that run stored cases share: parting lines, numbers and hex in their input. Nothing of the reader rests on it.
#![tactic(auto)]

ghost use Rattle.std.specs.Prelude.{◌<◌, ◌≤◌, length};

// What stands before the first place of some bytes, and what stands behind them there.
pub fn split_once<'a>(s: &'a [u8], by: &[u8]) -> Option<(&'a [u8], &'a [u8])>
    requires { 0 < length by.now }
{
    let at = s.windows(by.len()).position(|part| part == by)?;
    Some((&s[..at], &s[at + by.len()..]))
}

// What stands before the first parting line, and what stands behind it; the line ends before and after it belong to it.
pub fn split_part(s: &[u8]) -> Option<(&[u8], &[u8])> {
    split_once(s, b"\n====\n")
}

// The number of the decimal digits at the start, as far as 32 bits hold it.
pub fn number_at(s: &[u8]) -> u32 {
    let mut n: u32 = 0;
    for b in s {
        if !b.is_ascii_digit() {
            break;
        }
        n = n.wrapping_mul(10).wrapping_add((*b - b'0') as u32);
    }
    n
}

// The value of a hex digit; any other byte counts as 0.
fn digit(b: u8) -> u8
    ensures { result ≤ 15 }
{
    match b {
        b'0'..=b'9' => b - b'0',
        b'a'..=b'f' => b - b'a' + 10,
        _ => 0,
    }
}

// Two hex digits to a byte, as many as there is room for; the bytes that they make.
pub fn bytes_of<'b>(s: &[u8], room: &'b mut [u8]) -> &'b mut [u8] {
    let (pairs, _) = s.as_chunks::<2>();
    let n = pairs.len().min(room.len());
    let bytes = &mut room[..n];
    for (byte, [high, low]) in bytes.iter_mut().zip(pairs) {
        *byte = digit(*high) * 16 + digit(*low);
    }
    bytes
}
