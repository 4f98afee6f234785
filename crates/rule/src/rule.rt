// The table rule.
ghost use Rattle.std.specs.Prelude.{◌≡◌, ℕ};
ghost use Rattle.tables.specs.Form.{tables_in, object_section, group_section, method_section, table_section, entry_section};
ghost use Rattle.number.specs.Below.{sum_below, all_below};
ghost use Rattle.tables.specs.Group.{elements};
ghost use Rattle.tables.specs.Rule.{object_rule, group_rule, method_rule, table_rule, entry_rule, head_rule, ruled, keeps_rule};

use crate::below::all_below;
use crate::conversion::{keeps_entry, keeps_method, keeps_table};
use crate::object::keeps_object;
use crate::part::keeps_group;
use crate::unused::keeps_form;
use convert::edition::is_edition;
use tables::form::{ENTRY, GROUP, HEAD, METHOD, OBJECT, PARTS, TABLE, count_of, slot_of};
use tables::group::elements_of;
use tables::head::{edition_of, total_of};

// "4,096 elements in all objects"
const MOST_ELEMENTS: u64 = 4096;

// Whether every object keeps the rule.
fn keep_objects(t: &[u64], n: usize) -> bool
    ensures { result ≡ all_below ((tables_in t.now).counts object_section) (object_rule (tables_in t.now) n) }
{
    all_below(count_of(t, OBJECT), |i| keeps_object(t, n, i))
}

// Whether every group keeps the rule.
fn keep_groups(t: &[u64], m: usize) -> bool
    ensures { result ≡ all_below ((tables_in t.now).counts group_section) (λ (g : ℕ). group_rule (tables_in t.now) g m) }
{
    all_below(count_of(t, GROUP), |g| keeps_group(t, g, m))
}

// Whether every method keeps the rule.
fn keep_methods(t: &[u64]) -> bool
    ensures { result ≡ all_below ((tables_in t.now).counts method_section) (method_rule (tables_in t.now)) }
{
    all_below(count_of(t, METHOD), |i| keeps_method(t, i))
}

// Whether every verbal table keeps the rule.
fn keep_tables(t: &[u64], n: usize) -> bool
    ensures { result ≡ all_below ((tables_in t.now).counts table_section) (table_rule (tables_in t.now) n) }
{
    all_below(count_of(t, TABLE), |i| keeps_table(t, n, i))
}

// Whether every entry keeps the rule.
fn keep_entries(t: &[u64], n: usize) -> bool
    ensures { result ≡ all_below ((tables_in t.now).counts entry_section) (entry_rule (tables_in t.now) n) }
{
    all_below(count_of(t, ENTRY), |i| keeps_entry(t, n, i))
}

// How many elements all groups have.
fn sum_of(t: &[u64]) -> u64
    ensures { result ≡ sum_below ((tables_in t.now).counts group_section) (elements (tables_in t.now)) }
{
    let mut sum: u64 = 0;
    for g in 0..count_of(t, GROUP) {
        sum += elements_of(t, g);
    }
    sum
}

// Whether the head has an edition, says how many elements there are, and there are not too many.
fn keeps_head(t: &[u64]) -> bool
    ensures { result ≡ head_rule (tables_in t.now) }
{
    let heads = count_of(t, HEAD);
    let edition = is_edition(edition_of(t));
    let mark = slot_of(t, HEAD, 0, 1);
    let total = total_of(t);
    let sum = sum_of(t);
    let groups = count_of(t, GROUP);
    let objects = count_of(t, OBJECT);
    let parts = (objects as u32) * (PARTS as u32);
    (heads == 1)
        & edition
        & (mark == 0)
        & (total == sum)
        & (total <= MOST_ELEMENTS)
        & ((groups as u32) == parts)
}

// Whether the records keep the rule.
fn is_ruled(t: &[u64], n: usize, m: usize) -> bool
    ensures { result ≡ ruled (tables_in t.now) n m }
{
    let head = keeps_head(t);
    let objects = keep_objects(t, n);
    let groups = keep_groups(t, m);
    let methods = keep_methods(t);
    let tables = keep_tables(t, n);
    let entries = keep_entries(t, n);
    head & objects & groups & methods & tables & entries
}

// Whether the cells keep the table rule, for n bytes of description and m of image.
pub fn keeps_rule(t: &[u64], n: usize, m: usize) -> bool
    ensures { result ≡ keeps_rule n m t.now }
{
    if keeps_form(t) {
        return is_ruled(t, n, m);
    }
    false
}
