// "counts within capacity" and "no unused field other than zero"
ghost use Rattle.std.specs.Prelude.{◌≡◌, ℕ, ◌+◌, ◌*◌, ◌<◌, ◌^◌, eqb, get_or};
ghost use Rattle.tables.specs.Form.{tables_in};
ghost use Rattle.number.specs.Below.{all_below};
ghost use Rattle.tables.specs.Rule.{count_fits, unused_zero, form_rule};

use records::Section;
use tables::form::{count_of, section_of};

// How many sections there are.
const SECTIONS: u8 = 6;

// Whether so many cells from a place on are zero; past the end there is none. All bits are gathered, with no test of each cell,
// by the cells' places, of which the clause speaks.
fn are_zero(t: &[u64], from: usize, many: usize) -> bool
    requires { from + many < 2 ^ 64 }
    ensures { result ≡ all_below many (λ (k : ℕ). eqb (get_or t.now (from + k) 0) 0) }
{
    let there = t.len().saturating_sub(from).min(many);
    let mut bits: u64 = 0;
    for k in 0..there {
        bits |= t[from + k];
    }
    bits == 0
}

// Whether so many numbers of record i of section j, from number k on, are zero; past a record's numbers and the records there is none.
pub fn has_zeros(t: &[u64], j: u8, i: u16, from: u8, many: u8) -> bool
    ensures { result ≡ all_below many (λ (k : ℕ). eqb ((tables_in t.now).slots j i (k + from)) 0) }
{
    let c = section_of(j);
    if c.most <= i {
        return true;
    }
    let there = c.width.saturating_sub(from).min(many);
    let record = (c.base as usize) + (1 + (c.width as usize) * (i as usize));
    are_zero(t, record + (from as usize), there as usize)
}

// Whether section j counts no more records than it may have.
fn is_count(t: &[u64], j: u8) -> bool
    ensures { result ≡ count_fits t.now j }
{
    let c = section_of(j);
    records::get(t, c.base as usize) <= (c.most as u64)
}

// How many cells n records of a section take.
fn cells_of(c: Section, n: u16) -> usize
    ensures { result ≡ c.width * n }
{
    (c.width as usize) * (n as usize)
}

// Whether the cells of section j past its records are zero.
fn is_unused(t: &[u64], j: u8) -> bool
    ensures { result ≡ unused_zero t.now j }
{
    let c = section_of(j);
    let used = cells_of(c, count_of(t, j));
    let all = cells_of(c, c.most);
    are_zero(t, (c.base as usize) + (1 + used), all - used)
}

// Whether every section keeps its form.
pub fn keeps_form(t: &[u64]) -> bool
    ensures { result ≡ form_rule t.now }
{
    for j in 0..SECTIONS {
        if !(is_count(t, j) & is_unused(t, j)) {
            return false;
        }
    }
    true
}
