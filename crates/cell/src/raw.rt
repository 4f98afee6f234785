// The raw number of one element: read, judged and written. A mask of 0 is no mask.
ghost use Rattle.std.specs.Prelude.{◌≡◌, true, ◌+◌, ◌<◌, ◌≤◌, leb};
ghost use Rattle.cell.specs.Kind.{shape_of};
ghost use Rattle.cell.specs.Mask.{mask_rule};
ghost use Rattle.cell.specs.Raw.{raw_of, raw_at, fits_raw, stored_with, written};

use crate::bytes::{store_at, stored_at};
use crate::kind::{Shape, shape_of};
use crate::mask::{extract, fits_mask, insert};
use crate::sign::{bits_of, fits_type, range, value_of};
use crate::size::size;

// Whether width bytes at a place end inside length bytes.
fn is_inside(length: usize, at: usize, width: usize) -> bool
    ensures { result ≡ leb (at + width) length }
{
    at <= length && width <= length - at
}

// The raw number of a stored number.
fn raw_of(t: Shape, mask: u64, stored: u32) -> i64
    requires { t.bytes ≤ 4 }
    ensures { result ≡ raw_of t mask stored }
{
    if mask == 0 {
        return value_of(t.signed, t.bytes, stored);
    }
    extract(stored as u64, mask) as i64
}

// The raw number of the element at a place; 0 where a byte of it lies outside the image.
pub fn read_raw(image: &[u8], at: usize, kind: u64, first: bool, mask: u64) -> i64
    ensures { result ≡ raw_at first at (shape_of kind) mask image.now }
{
    let t = shape_of(kind);
    let width = t.bytes;
    if is_inside(image.len(), at, width) {
        let stored = stored_at(image, at, width, first);
        return raw_of(t, mask, stored);
    }
    0
}

// Whether a mask keeps its own rule beside a data type.
pub fn keeps_mask_rule(kind: u64, mask: u64) -> bool
    ensures { result ≡ mask_rule (shape_of kind) mask }
{
    let t = shape_of(kind);
    !t.signed & (0 < mask) & (mask < range(t.bytes))
}

// Whether a raw number fits type and mask: else a write is 18. No byte of an image is looked at.
pub fn fits_raw(kind: u64, mask: u64, raw: i64) -> bool
    ensures { result ≡ fits_raw (shape_of kind) mask raw }
{
    if mask == 0 {
        let t = shape_of(kind);
        return fits_type(t.signed, t.bytes, raw);
    }
    if raw < 0 {
        return false;
    }
    fits_mask(size(raw), mask)
}

// The stored number with a raw number in it.
fn stored_with(t: Shape, mask: u64, old: u32, raw: i64) -> u64
    requires bytes_bound { t.bytes ≤ 4 }
    requires raw_value { fits_raw t mask raw ≡ true }
    ensures { result ≡ stored_with t mask old raw }
{
    if mask == 0 {
        return bits_of(t.bytes, raw);
    }
    insert(old as u64, mask, size(raw))
}

// Writes a raw number to the element at a place, where it fits and every byte is inside the image.
pub fn write_raw(image: &mut [u8], at: usize, kind: u64, first: bool, mask: u64, raw: i64)
    ensures { image.new ≡ written first at (shape_of kind) mask raw image.old }
{
    if fits_raw(kind, mask, raw) {
        let t = shape_of(kind);
        let width = t.bytes;
        if is_inside(image.len(), at, width) {
            let old = stored_at(image, at, width, first);
            let n = stored_with(t, mask, old, raw);
            store_at(image, at, width, first, n);
        }
    }
}
