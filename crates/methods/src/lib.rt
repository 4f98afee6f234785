// Conversions of the methods that were read: the first that is none stops the load.
#![tactic(auto)]

ghost use Rattle.std.specs.Prelude.{◌≡◌};
ghost use Rattle.convert.specs.Told.{told_method};
ghost use Rattle.grammar.specs.Move.{view_in};
ghost use Rattle.methods.specs.Methods.{linear_at, rat_func_at, coefficients, converts, told_methods};

use convert::method::{Coefficients, NoConversion, identical, linear, rat_func};
use grammar::view::{METHOD, count_of, decimal_slots, slot_of};
use rows::slots::{
    COEFF_B, COEFF_C, COEFF_E, COEFF_F, CONVERSION_TYPE, LINEAR_A, LINEAR_B, OWN_NAME,
};
use text::cursor::Refusal;
use words::codes::{LINEAR, RAT_FUNC};

// The coefficients of a LINEAR method.
fn linear_at(t: &[u64], i: u16) -> Result<Coefficients, NoConversion>
    ensures { told_method result ≡ linear_at (view_in t.now) i }
{
    linear(
        decimal_slots(t, METHOD, i, LINEAR_A),
        decimal_slots(t, METHOD, i, LINEAR_B),
    )
}

// The coefficients of a RAT_FUNC method.
fn rat_func_at(t: &[u64], i: u16) -> Result<Coefficients, NoConversion>
    ensures { told_method result ≡ rat_func_at (view_in t.now) i }
{
    let b = decimal_slots(t, METHOD, i, COEFF_B);
    let c = decimal_slots(t, METHOD, i, COEFF_C);
    let e = decimal_slots(t, METHOD, i, COEFF_E);
    let f = decimal_slots(t, METHOD, i, COEFF_F);
    rat_func(b, c, e, f)
}

// The coefficients of method i.
pub fn coefficients_of(t: &[u64], i: u16) -> Result<Coefficients, NoConversion>
    ensures { told_method result ≡ coefficients (view_in t.now) i }
{
    let kind = slot_of(t, METHOD, i, CONVERSION_TYPE);
    if kind == (LINEAR as u64) {
        return linear_at(t, i);
    }
    if kind == (RAT_FUNC as u64) {
        return rat_func_at(t, i);
    }
    Ok(identical())
}

// Judges every method of the records: every one has its coefficients, or the refusal of the first that has none.
pub fn convert_all(t: &[u64]) -> Result<(), Refusal>
    ensures { told_methods result ≡ converts (view_in t.now) }
{
    for i in 0..count_of(t, METHOD) {
        if coefficients_of(t, i).is_err() {
            return Err(Refusal {
                no: 10,
                place: slot_of(t, METHOD, i, OWN_NAME) as usize,
            });
        }
    }
    Ok(())
}
