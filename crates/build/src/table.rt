// The rows of verbal tables and of their entries.
ghost use Rattle.std.specs.Prelude.{◌≡◌};
ghost use Rattle.rows.specs.Sections.{table, entry};
ghost use Rattle.grammar.specs.Move.{view_in};
ghost use Rattle.tables.specs.Form as form;
ghost use Rattle.build.specs.Build.{rows_below, entries_end, table_row, entry_row};
ghost use Rattle.build.specs.Row.{row_in, rows_in};

use crate::row::put_row;
use grammar::view::{ENTRY, TABLE, count_of, slot_of};
use rows::slots::{
    DEFAULT_VALUE, DEFAULT_VALUE_PAST, ENTRY_SIGN, ENTRY_SIZE, ENTRY_TEXT, ENTRY_TEXT_PAST,
    FIRST_HELD,
};

// The place past a table's last entry.
fn entries_end(t: &[u64], i: u16) -> u64
    ensures { result ≡ entries_end (view_in t.now) i }
{
    let count = count_of(t, TABLE);
    let next = (i as u32) + 1;
    if next < (count as u32) {
        return slot_of(t, TABLE, next as u16, FIRST_HELD);
    }
    count_of(t, ENTRY) as u64
}

// The row of table i.
fn put_table(u: &mut [u64], t: &[u64], i: u16)
    ensures { u.new ≡ row_in u.old form.table_section (table_row (view_in t.now) i) }
{
    let first = slot_of(t, TABLE, i, FIRST_HELD);
    let many = entries_end(t, i).saturating_sub(first);
    let from = slot_of(t, TABLE, i, DEFAULT_VALUE);
    let to = slot_of(t, TABLE, i, DEFAULT_VALUE_PAST);
    put_row(u, tables::form::TABLE, &[first, many, from, to]);
}

// The rows of all tables.
pub fn put_tables(u: &mut [u64], t: &[u64])
    ensures { u.new ≡ rows_in u.old form.table_section (rows_below ((view_in t.now).counts table) (table_row (view_in t.now))) }
{
    for i in 0..count_of(t, TABLE) {
        put_table(u, t, i);
    }
}

// The row of entry i.
fn put_entry(u: &mut [u64], t: &[u64], i: u16)
    ensures { u.new ≡ row_in u.old form.entry_section (entry_row (view_in t.now) i) }
{
    let sign = slot_of(t, ENTRY, i, ENTRY_SIGN).min(1);
    let size = slot_of(t, ENTRY, i, ENTRY_SIZE);
    let from = slot_of(t, ENTRY, i, ENTRY_TEXT as u16);
    let to = slot_of(t, ENTRY, i, ENTRY_TEXT_PAST);
    put_row(u, tables::form::ENTRY, &[sign, size, from, to]);
}

// The rows of all entries.
pub fn put_entries(u: &mut [u64], t: &[u64])
    ensures { u.new ≡ rows_in u.old form.entry_section (rows_below ((view_in t.now).counts entry) (entry_row (view_in t.now))) }
{
    for i in 0..count_of(t, ENTRY) {
        put_entry(u, t, i);
    }
}
