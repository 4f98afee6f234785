// References: the first that leads nowhere stops the load.
#![tactic(auto)]

ghost use Rattle.std.specs.Prelude.{◌≡◌};
ghost use Rattle.grammar.specs.Move.{view_in};
ghost use Rattle.refer.specs.Refer.{reference_rows, row, is_free, judged_reference, failing, least_of, stopped, sooner, referred, told_reference};

use grammar::names::find;
use grammar::view::{AXIS, LAYOUT, METHOD, OBJECT, TABLE, count_of, slot_of};
use rows::slots::{
    AXIS_CONVERSION, AXIS_INPUT_QUANTITY, AXIS_PTS_REF, BLOCK_CODE, COMPU_TAB_REF,
    OBJECT_CONVERSION, OBJECT_INPUT_QUANTITY, OBJECT_LAYOUT,
};
use text::bytes::same_part;
use text::cursor::Refusal;

// A reference: its section and slot, the section and class that it must lead to, and the word that stands for none.
#[derive(Clone, Copy)]
pub struct Row {
    pub sec: u8,
    pub slot: u8,
    pub target: u8,
    pub class: u8,
    pub free: u8,
}

// A row of the references.
fn row_of(sec: u8, slot: u8, target: u8, class: u8, free: u8) -> Row
    ensures { result ≡ row sec slot target class free }
{
    Row {
        sec,
        slot,
        target,
        class,
        free,
    }
}

// Whether the bytes from a up to e are the word that stands for none.
fn is_free(x: &[u8], free: u8, a: usize, e: usize) -> bool
    ensures { result ≡ is_free x.now free a e }
{
    let no_method = same_part(x, a, e, b"NO_COMPU_METHOD", 0, 15);
    let no_quantity = same_part(x, a, e, b"NO_INPUT_QUANTITY", 0, 17);
    (free == 1) & no_method | (free == 2) & no_quantity
}

// What the name from a up to e leads to: a record of the right class, or refusal 7 at its first byte.
fn refer(x: &[u8], t: &[u64], r: Row, a: usize, e: usize) -> Result<(), Refusal>
    ensures { told_reference result ≡ judged_reference x.now (view_in t.now) r a e }
{
    if is_free(x, r.free, a, e) {
        return Ok(());
    }
    let Some(i) = find(x, t, r.target, a, e) else {
        return Err(Refusal { no: 7, place: a });
    };
    if (r.class == 0) | (slot_of(t, r.target, i, BLOCK_CODE) == (r.class as u64)) {
        return Ok(());
    }
    Err(Refusal { no: 7, place: a })
}

// What record i's reference leads to; one that is not there, its end 0, or not in the text is fine.
fn reference_of(x: &[u8], t: &[u64], r: Row, i: u16) -> Result<(), Refusal>
    ensures { told_reference result ≡ stopped x.now (failing x.now (view_in t.now) r i) }
{
    let k = r.slot as u16;
    let a = slot_of(t, r.sec, i, k) as usize;
    let e = slot_of(t, r.sec, i, k + 1) as usize;
    if e == 0 {
        return Ok(());
    }
    if x.len() <= a {
        return Ok(());
    }
    refer(x, t, r, a, e)
}

// The earlier of two refusals, or the one that there is.
fn sooner_of(a: Result<(), Refusal>, b: Result<(), Refusal>) -> Result<(), Refusal>
    ensures { told_reference result ≡ sooner (told_reference a) (told_reference b) }
{
    match (a, b) {
        (Ok(()), _) => b,
        (_, Ok(())) => a,
        (Err(p), Err(q)) => if q.place < p.place { b } else { a },
    }
}

// The first by place of a row's references that lead nowhere.
fn first_of(x: &[u8], t: &[u64], r: Row) -> Result<(), Refusal>
    ensures { told_reference result ≡ stopped x.now (least_of x.now (view_in t.now) r) }
{
    let mut first = Ok(());
    for i in 0..count_of(t, r.sec) {
        first = sooner_of(first, reference_of(x, t, r, i));
    }
    first
}

// Where references stand, in the order of the sections.
fn reference_rows() -> [Row; 7]
    ensures { result ≡ reference_rows }
{
    [
        row_of(OBJECT, OBJECT_LAYOUT, LAYOUT, 0, 0),
        row_of(OBJECT, OBJECT_CONVERSION, METHOD, 0, 1),
        row_of(OBJECT, OBJECT_INPUT_QUANTITY, OBJECT, 10, 2),
        row_of(AXIS, AXIS_INPUT_QUANTITY, OBJECT, 10, 2),
        row_of(AXIS, AXIS_CONVERSION, METHOD, 0, 1),
        row_of(AXIS, AXIS_PTS_REF, OBJECT, 7, 0),
        row_of(METHOD, COMPU_TAB_REF, TABLE, 0, 0),
    ]
}

// Judges every reference of the records: the first by place that leads nowhere stops the load.
pub fn refer_all(x: &[u8], t: &[u64]) -> Result<(), Refusal>
    ensures { told_reference result ≡ referred x.now (view_in t.now) }
{
    let mut first = Ok(());
    for r in reference_rows() {
        first = sooner_of(first, first_of(x, t, r));
    }
    first
}
