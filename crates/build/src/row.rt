// Rows of numbers put into the tables.
ghost use Rattle.std.specs.Prelude.{◌≡◌};
ghost use Rattle.records.specs.Cells.{section_in, count_in};
ghost use Rattle.tables.specs.Form.{table_sections};
ghost use Rattle.build.specs.Row.{puts_at, opened, row_in};

use tables::form::{add_record, count_of, put_slot};

// A slot past those of every record.
const PAST_SLOTS: usize = 65535;

// A record more in section j: its number.
pub fn open_row(u: &mut [u64], j: u8) -> u16
    ensures { (result ≡ count_in u.old (section_in table_sections j)) × (u.new ≡ opened u.old j) }
{
    let i = count_of(u, j);
    add_record(u, j);
    i
}

// Numbers into record i of section j from slot k on; what is past a record's slots is stored nowhere.
pub fn put_numbers(u: &mut [u64], j: u8, i: u16, k: u8, numbers: &[u64])
    ensures { u.new ≡ puts_at u.old j i k numbers.now }
{
    for n in 0..numbers.len() {
        let slot = ((k as usize) + n).min(PAST_SLOTS) as u16;
        put_slot(u, j, i, slot, numbers[n]);
    }
}

// A record more in section j, with these numbers.
pub fn put_row(u: &mut [u64], j: u8, numbers: &[u64])
    ensures { u.new ≡ row_in u.old j numbers.now }
{
    let i = open_row(u, j);
    put_numbers(u, j, i, 0, numbers);
}
