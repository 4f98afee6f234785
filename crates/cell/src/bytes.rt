// Bytes and the stored number, in either byte order.
ghost use Rattle.std.specs.Prelude.{◌≡◌, not, ◌+◌, ◌<◌, ◌≤◌, ◌^◌, ◌*◌, length};
ghost use Rattle.cell.specs.Bytes.{stored_at, with_stored, byte_place};

// The place of the byte with i more significant bytes above it.
fn place(first: bool, at: usize, width: usize, i: usize) -> usize
    requires { (i < width) × (at + width < 2 ^ 64) }
    ensures { result ≡ byte_place first at width i }
{
    if first {
        return at + i;
    }
    at + (width - 1 - i)
}

// The number stored in width bytes at a place, MSB_FIRST or MSB_LAST.
pub fn stored_at(s: &[u8], at: usize, width: usize, first: bool) -> u32
    requires { (width ≤ 4) × (at + width ≤ length s.now) }
    ensures { result ≡ stored_at first at width s.now }
{
    let mut n: u32 = 0;
    for i in 0..width {
        let j = place(first, at, width, i);
        n = n * 256 + (s[j] as u32);
    }
    n
}

// Stores a number in width bytes at a place, MSB_FIRST or MSB_LAST.
pub fn store_at(s: &mut [u8], at: usize, width: usize, first: bool, n: u64)
    requires { at + width ≤ length s.old }
    ensures { s.new ≡ with_stored first at width n s.old }
{
    let mut m = n;
    for i in 0..width {
        let j = place(!first, at, width, i);
        s[j] = (m % 256) as u8;
        m /= 256;
    }
}
