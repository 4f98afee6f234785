// What a write judges of the element alone: 20, 22, 14, 21, 19.
ghost use Rattle.std.specs.Prelude.{◌≡◌, ◌+◌};
ghost use Rattle.look.specs.Calls.{lent_of, is_counted, on_count};
ghost use Rattle.look.specs.Refused.{number_of};
ghost use Rattle.look.specs.Steps.{writable_no, element_no};

use cell::kind::shape_of;
use look::bytes::share;
use look::check::{check, group_of, is_element};
use look::refusal::CallRefusal;
use tables::form::{GROUP, count_of};
use tables::group::{bytes_of, counter_of, counter_place_of, is_forbidden, place_of};

// Whether so many bytes from lo on share one with a group's stored count.
fn is_counted(t: &[u64], lo: u64, many: u64, g: u16) -> bool
    ensures { result ≡ is_counted t.now lo (lo + many) g }
{
    let kind = counter_of(t, g);
    let at = counter_place_of(t, g) as u64;
    let shape = shape_of(kind);
    let w = shape.bytes as u64;
    share(lo, many, at, w) & (kind != 0)
}

// Whether so many bytes from lo on share one with any stored count.
pub fn is_on_count(t: &[u64], lo: u64, many: u64) -> bool
    ensures { result ≡ on_count t.now lo (lo + many) }
{
    for g in 0..count_of(t, GROUP) {
        if is_counted(t, lo, many, g) {
            return true;
        }
    }
    false
}

// Whether an element may be written at all: 21, 19.
pub fn judge_element(t: &[u64], g: u16, i: u32) -> Result<(), CallRefusal>
    ensures { number_of result ≡ writable_no t.now g i }
{
    if is_forbidden(t, g) {
        return Err(CallRefusal::Forbidden);
    }
    if is_on_count(t, place_of(t, g, i), bytes_of(t, g) as u64) {
        return Err(CallRefusal::OnCount);
    }
    Ok(())
}

// The judgement that both writes begin with: 20, 22, 14, 21, 19.
pub fn judge(
    n: usize,
    m: usize,
    base: u32,
    t: &[u64],
    enough: bool,
    object: u32,
    part: u8,
    index: u32,
) -> Result<(), CallRefusal>
    ensures { number_of result ≡ element_no t.now (lent_of n m base) enough object part index }
{
    check(n, m, base, t, enough)?;
    if !is_element(t, object, part, index) {
        return Err(CallRefusal::NoElement);
    }
    judge_element(t, group_of(object, part), index)
}
