// The methods' rows: conversion, coefficients, verbal table.
ghost use Rattle.std.specs.Prelude.{◌≡◌};
ghost use Rattle.rows.specs.Sections.{method};
ghost use Rattle.grammar.specs.Move.{view_in};
ghost use Rattle.tables.specs.Form as form;
ghost use Rattle.build.specs.Build.{rows_below, number_cells, conversion_of, coefficient_cells, fraction_row, table_number, verbal_row, method_row};
ghost use Rattle.build.specs.Row.{puts_at, row_in, rows_in};

use crate::part::number_of;
use crate::row::{open_row, put_numbers, put_row};
use cell::size::size;
use convert::method::{Coefficients, identical};
use grammar::names::find;
use grammar::view::{METHOD, TABLE, count_of, slot_of};
use methods::coefficients_of;
use rows::slots::{COMPU_TAB_REF, COMPU_TAB_REF_PAST, CONVERSION_TYPE};
use tables::form::put_slot;
use words::codes::{IDENTICAL, LINEAR, RAT_FUNC, TAB_VERB};

// A whole number's two cells into method m from slot k on.
fn put_whole(u: &mut [u64], m: u16, k: u8, z: i64)
    ensures { u.new ≡ puts_at u.old form.method_section m k (number_cells z) }
{
    put_numbers(u, tables::form::METHOD, m, k, &[u64::from(z < 0), size(z)]);
}

// The coefficients into method m.
fn put_coefficients(u: &mut [u64], m: u16, k: Coefficients)
    ensures { u.new ≡ puts_at u.old form.method_section m form.b_cell (coefficient_cells k) }
{
    put_whole(u, m, 1, k.b);
    put_whole(u, m, 3, k.c);
    put_whole(u, m, 5, k.e);
    put_whole(u, m, 7, k.f);
}

// IDENTICAL, LINEAR or RAT_FUNC.
fn conversion_of(t: &[u64], i: u16) -> u64
    ensures { result ≡ conversion_of (view_in t.now) i }
{
    let word = slot_of(t, METHOD, i, CONVERSION_TYPE);
    if word == (LINEAR as u64) {
        return LINEAR as u64;
    }
    if word == (RAT_FUNC as u64) {
        return RAT_FUNC as u64;
    }
    IDENTICAL as u64
}

// The row of method i, which makes fractions.
fn put_fraction(u: &mut [u64], t: &[u64], i: u16)
    ensures { u.new ≡ row_in u.old form.method_section (fraction_row (view_in t.now) i) }
{
    let conversion = conversion_of(t, i);
    let k = coefficients_of(t, i).unwrap_or(identical());
    let m = open_row(u, tables::form::METHOD);
    put_slot(u, tables::form::METHOD, m, 0, conversion);
    put_coefficients(u, m, k);
    put_slot(u, tables::form::METHOD, m, 9, 0);
}

// The number of method i's verbal table and one more.
fn table_number(x: &[u8], t: &[u64], i: u16) -> u64
    ensures { result ≡ table_number x.now (view_in t.now) i }
{
    let a = slot_of(t, METHOD, i, COMPU_TAB_REF as u16) as usize;
    let e = slot_of(t, METHOD, i, COMPU_TAB_REF_PAST) as usize;
    number_of(find(x, t, TABLE, a, e))
}

// The row of a method with the verbal table of a number.
fn put_verbal(u: &mut [u64], table: u64)
    ensures { u.new ≡ row_in u.old form.method_section (verbal_row table) }
{
    put_row(
        u,
        tables::form::METHOD,
        &[TAB_VERB as u64, 0, 0, 0, 0, 0, 0, 0, 0, table],
    );
}

// The row of method i.
fn put_method(u: &mut [u64], x: &[u8], t: &[u64], i: u16)
    ensures { u.new ≡ row_in u.old form.method_section (method_row x.now (view_in t.now) i) }
{
    let word = slot_of(t, METHOD, i, CONVERSION_TYPE);
    let table = table_number(x, t, i);
    if (word == (TAB_VERB as u64)) & (table != 0) {
        put_verbal(u, table);
        return;
    }
    put_fraction(u, t, i);
}

// The rows of all methods.
pub fn put_methods(u: &mut [u64], x: &[u8], t: &[u64])
    ensures { u.new ≡ rows_in u.old form.method_section (rows_below ((view_in t.now).counts method) (method_row x.now (view_in t.now))) }
{
    for i in 0..count_of(t, METHOD) {
        put_method(u, x, t, i);
    }
}
