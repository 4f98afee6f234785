// BIT_MASK: the mask's lowest set bit decides the shift.
ghost use Rattle.std.specs.Prelude.{◌≡◌, true, ◌<◌};
ghost use Rattle.cell.specs.Mask.{masked, fits_mask, inserted};

// The raw number that a stored number has under a mask.
pub fn extract(stored: u64, mask: u64) -> u64
    requires { 0 < mask }
    ensures { result ≡ masked stored mask }
{
    (stored & mask) >> mask.trailing_zeros()
}

// Whether a raw number, shifted back, has no bit outside the mask. A number above the shifted mask has one, and no other loses a bit.
pub fn fits_mask(raw: u64, mask: u64) -> bool
    requires { 0 < mask }
    ensures { result ≡ fits_mask raw mask }
{
    let low = mask.trailing_zeros();
    if mask >> low < raw {
        return false;
    }
    let back = raw << low;
    back & mask == back
}

// The stored number with a raw number under the mask.
pub fn insert(stored: u64, mask: u64, raw: u64) -> u64
    requires mask_nonzero { 0 < mask }
    requires mask_value { fits_mask raw mask ≡ true }
    ensures { result ≡ inserted stored mask raw }
{
    let low = mask.trailing_zeros();
    (stored & !mask) | (raw << low)
}
