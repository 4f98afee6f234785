// What calls test first: the lent sizes, the table rule, the element.
ghost use Rattle.std.specs.Prelude.{◌≡◌, min};
ghost use Rattle.tables.specs.Form.{tables_in};
ghost use Rattle.tables.specs.Group.{group_of};
ghost use Rattle.look.specs.Element.{past_records};
ghost use Rattle.look.specs.Calls.{lent_of, is_element};
ghost use Rattle.look.specs.Refused.{number_of};
ghost use Rattle.look.specs.Steps.{checked_no};

use crate::element::record_of;
use crate::refusal::CallRefusal;
use rule::rule::keeps_rule;
use tables::form::{OBJECT, PARTS, count_of};
use tables::group::elements_of;
use tables::sizes::sizes_fit;

// What every call tests: 20, 22. n bytes of description, m of image, and whether a list is long enough.
pub fn check(n: usize, m: usize, base: u32, t: &[u64], enough: bool) -> Result<(), CallRefusal>
    ensures { number_of result ≡ checked_no t.now (lent_of n m base) enough }
{
    if !(sizes_fit(n, m, base, t.len()) & enough) {
        return Err(CallRefusal::BadSize);
    }
    if !keeps_rule(t, n, m) {
        return Err(CallRefusal::BrokenRule);
    }
    Ok(())
}

// The group of an object's part.
pub fn group_of(object: u32, part: u8) -> u16
    ensures { result ≡ min (group_of object part) past_records }
{
    record_of((object as u64) * (PARTS as u64) + (part as u64))
}

// Whether there is such an element.
pub fn is_element(t: &[u64], object: u32, part: u8, index: u32) -> bool
    ensures { result ≡ is_element (tables_in t.now) object part index }
{
    let count = elements_of(t, group_of(object, part));
    (object < (count_of(t, OBJECT) as u32)) & ((part as u16) < PARTS) & ((index as u64) < count)
}
