// Whether bytes lie inside the image. Addresses are absolute and nothing wraps.
ghost use Rattle.std.specs.Prelude.{◌≡◌};
ghost use Rattle.place.specs.Inside.{inside};

// Whether so many bytes at an address lie inside the image, whose first byte has the base address.
pub fn is_inside(image: &[u8], base: u32, at: u64, bytes: u64) -> bool
    ensures { result ≡ inside image.now base at bytes }
{
    let from = base as u64;
    let len = image.len() as u64;
    if at < from {
        return false;
    }
    if len < bytes {
        return false;
    }
    at - from <= len - bytes
}
