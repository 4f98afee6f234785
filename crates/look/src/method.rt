// What a group's values are converted by.
ghost use Rattle.std.specs.Prelude.{◌≡◌};
ghost use Rattle.tables.specs.Form.{tables_in};
ghost use Rattle.look.specs.Calls.{asks_by, is_tab_verb};

use crate::element::record_before;
use convert::method::{Coefficients, identical};
use tables::form::{METHOD, slot_of};
use tables::group::method_of;
use tables::method::coefficients_of;

// The conversion that has a verbal table.
const TAB_VERB: u64 = 22;

// Whether a group's values are texts.
pub fn is_tab_verb(t: &[u64], g: u16) -> bool
    ensures { result ≡ is_tab_verb (tables_in t.now) g }
{
    let m = method_of(t, g);
    if m == 0 {
        return false;
    }
    slot_of(t, METHOD, record_before(m), 0) == TAB_VERB
}

// The coefficients that a group's values are asked by.
pub fn asks_by(t: &[u64], g: u16) -> Coefficients
    ensures { result ≡ asks_by (tables_in t.now) g }
{
    let m = method_of(t, g);
    if m == 0 {
        return identical();
    }
    coefficients_of(t, record_before(m))
}
