// The table rule for one method, one verbal table and one entry.
ghost use Rattle.std.specs.Prelude.{◌≡◌, ℕ, ◌^◌, pos};
ghost use Rattle.convert.specs.Whole.{eq_z};
ghost use Rattle.tables.specs.Form.{tables_in};
ghost use Rattle.number.specs.Below.{any_below};
ghost use Rattle.tables.specs.Rule.{identical_rule, linear_rule, word_rule, verbal_rule, signs_rule, fraction_rule, method_rule, table_rule, entry_rule};

use crate::test::{IDENTICAL, LINEAR, TAB_VERB, is_fraction, is_sum_within, is_text};
use crate::unused::has_zeros;
use convert::method::{Coefficients, is_sound};
use tables::form::{ENTRY, METHOD, TABLE, count_of, slot_of};
use tables::method::coefficients_of;

// The number of a method's verbal table and one more.
const VERBAL: u16 = 9;

// Whether a TAB_VERB method has a table and no coefficients.
fn keeps_verbal(t: &[u64], i: u16) -> bool
    ensures { result ≡ verbal_rule (tables_in t.now) i }
{
    let none = has_zeros(t, METHOD, i, 1, 8);
    let table = slot_of(t, METHOD, i, VERBAL);
    let tables = count_of(t, TABLE);
    none & (1 <= table) & (table <= (tables as u64))
}

// Whether the four coefficients have a sign or none.
fn keeps_signs(t: &[u64], i: u16) -> bool
    ensures { result ≡ signs_rule (tables_in t.now) i }
{
    let b = slot_of(t, METHOD, i, 1);
    let c = slot_of(t, METHOD, i, 3);
    let e = slot_of(t, METHOD, i, 5);
    let f = slot_of(t, METHOD, i, 7);
    (b <= 1) & (c <= 1) & (e <= 1) & (f <= 1)
}

// Whether two whole numbers are the same.
fn is_same(a: i64, b: i64) -> bool
    ensures { result ≡ eq_z a b }
{
    a == b
}

// Whether a whole number is a power of ten, from 1 to 10^6.
fn is_power(b: i64) -> bool
    ensures { result ≡ any_below 7 (λ (t : ℕ). eq_z b (pos (10 ^ t))) }
{
    is_same(b, 1)
        | is_same(b, 10)
        | is_same(b, 100)
        | is_same(b, 1000)
        | is_same(b, 10000)
        | is_same(b, 100000)
        | is_same(b, 1000000)
}

// Whether coefficients are IDENTICAL's: 1, 0, 0, 1.
fn keeps_identical(k: Coefficients) -> bool
    ensures { result ≡ identical_rule k }
{
    is_same(k.b, 1) & is_same(k.c, 0) & is_same(k.e, 0) & is_same(k.f, 1)
}

// Whether coefficients can be LINEAR's: b is a power of ten, and e is 0.
fn keeps_linear(k: Coefficients) -> bool
    ensures { result ≡ linear_rule k }
{
    is_power(k.b) & is_same(k.e, 0)
}

// Whether coefficients are what a conversion's word asks for.
fn keeps_word(conversion: u64, k: Coefficients) -> bool
    ensures { result ≡ word_rule conversion k }
{
    match conversion {
        IDENTICAL => keeps_identical(k),
        LINEAR => keeps_linear(k),
        _ => true,
    }
}

// Whether any other method has coefficients that are a conversion, and no table.
fn keeps_fraction(t: &[u64], i: u16) -> bool
    ensures { result ≡ fraction_rule (tables_in t.now) i }
{
    let conversion = slot_of(t, METHOD, i, 0);
    let signs = keeps_signs(t, i);
    let k = coefficients_of(t, i);
    let sound = is_sound(k);
    let word = keeps_word(conversion, k);
    let table = slot_of(t, METHOD, i, VERBAL);
    is_fraction(conversion) & signs & sound & word & (table == 0)
}

// Whether method i keeps the table rule.
pub fn keeps_method(t: &[u64], i: u16) -> bool
    ensures { result ≡ method_rule (tables_in t.now) i }
{
    if slot_of(t, METHOD, i, 0) == TAB_VERB {
        return keeps_verbal(t, i);
    }
    keeps_fraction(t, i)
}

// Whether verbal table i has its entries among the entries, and its default text inside the description.
pub fn keeps_table(t: &[u64], n: usize, i: u16) -> bool
    ensures { result ≡ table_rule (tables_in t.now) n i }
{
    let from = slot_of(t, TABLE, i, 0);
    let many = slot_of(t, TABLE, i, 1);
    let entries = is_sum_within(from, many, count_of(t, ENTRY) as u64);
    let first = slot_of(t, TABLE, i, 2);
    let past = slot_of(t, TABLE, i, 3);
    let text = is_text(n, first, past);
    entries & text
}

// Whether entry i has a sign or none, and its text inside the description.
pub fn keeps_entry(t: &[u64], n: usize, i: u16) -> bool
    ensures { result ≡ entry_rule (tables_in t.now) n i }
{
    let sign = slot_of(t, ENTRY, i, 0);
    let first = slot_of(t, ENTRY, i, 2);
    let past = slot_of(t, ENTRY, i, 3);
    let text = is_text(n, first, past);
    (sign <= 1) & text
}
