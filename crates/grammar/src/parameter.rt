// A token where a parameter is expected.
ghost use Rattle.std.specs.Prelude.{◌≡◌, ◌||◌, ◌-◌, eqb};
ghost use Rattle.convert.specs.Limit.{at_most};
ghost use Rattle.number.specs.Told.{scaled};
ghost use Rattle.words.specs.Kind.{taken_choice};
ghost use Rattle.words.specs.Class.{class_at};
ghost use Rattle.grammar.specs.Move.{view_in, writes, went, moved};
ghost use Rattle.grammar.specs.Parameter.{sec_of, slot_of, wrong, after, keeping, sign_of, taken_whole, taken_pairs, decimal_in, has_entry, twice, new_record, taken_entry, taken_decimal, of_pairs, of_whole, of_decimal, taken_number, taken_new, of_choice, taken_name, after_text, taken_text, taken};

use crate::names::find;
use crate::state::{Act, ITEMS, Move, State};
use crate::view::{ENTRY, TABLE, before, count_of, current_of, decimal_slots, section_of, slot_of};
use number::decimal::Decimal;
use number::digits::NoForm;
use rows::cells::{LIMIT_HIGH, LIMIT_LOW, PARAM_KIND, PARAM_NEXT, PARAM_SEC, PARAM_SLOT};
use rows::slots::{ENTRY_SIGN, ENTRY_SIZE, ENTRY_TEXT, FIRST_HELD};
use rows::{limit_cell, param_cell};
use text::cursor::{Cursor, Refusal};
use words::class::Class;

// The kinds of a piece: numbers and no enum, since the clauses of taken and refuse hold of any number.
pub const NAME: u8 = 0;

pub const TEXT: u8 = 1;

pub const NUMBER: u8 = 2;

pub const BEGIN: u8 = 4;

pub const END: u8 = 5;

// The most points on one axis, and the most verbal entries.
const MOST_POINTS: u64 = 256;

const MOST_ENTRIES: u16 = 1024;

// On to a place, with what is expected there and what is written.
pub fn go(next: usize, state: State, act: Act) -> Result<Move, Refusal>
    ensures { moved result ≡ went next state act }
{
    Ok(Move::Went {
        next: Cursor { at: next },
        state,
        act,
    })
}

// A refusal of a piece that is not wanted; a number outside its form goes first. Its number stays a number: `wrong` speaks of any.
pub fn refuse(no: u8, x: &[u8], k: u8, a: usize, e: usize) -> Result<Move, Refusal>
    ensures { moved result ≡ wrong «no» x.now k a e }
{
    if k == NUMBER {
        if runs::form::has_form(x, a, e) {
            return Err(Refusal { no, place: a });
        }
        return Err(Refusal { no: 2, place: a });
    }
    Err(Refusal { no, place: a })
}

// The state after a parameter.
fn after_of(s: State) -> State
    ensures { result ≡ after s }
{
    State {
        mode: ITEMS,
        param: param_cell(s.param, PARAM_NEXT),
        ..s
    }
}

// What a parameter writes: its numbers in its slot, where it has one.
fn kept(s: State, many: u8, x: u64, y: u64, z: u64) -> Act
    ensures { result ≡ keeping s many x y z }
{
    let slot = param_cell(s.param, PARAM_SLOT);
    if slot == 0 {
        return Act::nothing();
    }
    Act {
        sec: param_cell(s.param, PARAM_SEC),
        slot,
        many,
        a: x,
        b: y,
        c: z,
        ..Act::nothing()
    }
}

// Whether a number may be an alignment.
fn is_alignment(n: u64) -> bool
    ensures { result ≡ (eqb n 1 || eqb n 2 || eqb n 4 || eqb n 8) }
{
    matches!(n, 1 | 2 | 4 | 8)
}

// A whole number in its parameter's place.
fn taken_whole(s: State, a: usize, e: usize, n: u64) -> Result<Move, Refusal>
    ensures { moved result ≡ taken_whole s a e n }
{
    let kind = param_cell(s.param, PARAM_KIND);
    if n < limit_cell(s.param, LIMIT_LOW) {
        return Err(Refusal { no: 2, place: a });
    }
    if (kind == rows::kinds::POINTS) & (MOST_POINTS < n) {
        return Err(Refusal { no: 8, place: a });
    }
    if (kind == rows::kinds::ALIGNMENT) & !is_alignment(n) {
        return Err(Refusal { no: 2, place: a });
    }
    go(e, after_of(s), kept(s, 1, n, 0, 0))
}

// How many pairs follow, at most 65535.
fn taken_pairs(s: State, e: usize, n: u64) -> Result<Move, Refusal>
    ensures { moved result ≡ taken_pairs s e n }
{
    let block = s.block;
    if n == 0 {
        return go(e, State::new(ITEMS, block, 0, 0), kept(s, 1, n, 0, 0));
    }
    let left = n.min(65535) as u16;
    let state = State::new(ITEMS, block, param_cell(s.param, PARAM_NEXT), left);
    go(e, state, kept(s, 1, n, 0, 0))
}

// The sign of a decimal as a number.
fn sign_of(d: Decimal) -> u64
    ensures { result ≡ sign_of (scaled d) }
{
    u64::from(d.negative)
}

// The decimal in three slots of the current record of section j.
fn decimal_at(t: &[u64], j: u8, k: u8) -> Decimal
    ensures { scaled result ≡ decimal_in (view_in t.now) j k }
{
    decimal_slots(t, j, before(count_of(t, j)), k)
}

// Whether an entry of the current table has a number.
fn has_number(t: &[u64], sign: u64, size: u64) -> bool
    ensures { result ≡ twice (view_in t.now) sign size }
{
    let count = count_of(t, ENTRY) as u64;
    let first = current_of(t, TABLE, FIRST_HELD);
    for i in first..count {
        let k = i as u16;
        if (slot_of(t, ENTRY, k, ENTRY_SIGN) == sign) & (slot_of(t, ENTRY, k, ENTRY_SIZE) == size) {
            return true;
        }
    }
    false
}

// A new record with its first numbers.
fn record_of(j: u8, many: u8, a: u64, b: u64, c: u64, d: u64) -> Act
    ensures { result ≡ new_record j many a b c d }
{
    Act {
        adds: j,
        sec: j,
        many,
        a,
        b,
        c,
        d,
        ..Act::nothing()
    }
}

// The number of a pair.
fn taken_entry(t: &[u64], s: State, a: usize, e: usize, d: Decimal) -> Result<Move, Refusal>
    ensures { moved result ≡ taken_entry (view_in t.now) s a e (scaled d) }
{
    if d.tens != 0 {
        return Err(Refusal { no: 2, place: a });
    }
    let sign = sign_of(d);
    let whole = d.whole;
    if has_number(t, sign, whole) {
        return Err(Refusal { no: 6, place: a });
    }
    if MOST_ENTRIES <= count_of(t, ENTRY) {
        return Err(Refusal { no: 8, place: a });
    }
    go(e, after_of(s), record_of(ENTRY, 2, sign, whole, 0, 0))
}

// Whether a lower limit that was read is at most an upper one.
fn is_upper(t: &[u64], s: State, d: Decimal) -> bool
    ensures { result ≡ at_most (decimal_in (view_in t.now) (sec_of s) (slot_of s - 3)) (scaled d) }
{
    let k = param_cell(s.param, PARAM_SLOT).saturating_sub(3);
    convert::limit::at_most(decimal_at(t, param_cell(s.param, PARAM_SEC), k), d)
}

// A decimal in its parameter's place.
fn taken_decimal(t: &[u64], s: State, a: usize, e: usize, d: Decimal) -> Result<Move, Refusal>
    ensures { moved result ≡ taken_decimal (view_in t.now) s a e (scaled d) }
{
    let kind = param_cell(s.param, PARAM_KIND);
    if kind == rows::kinds::NUMBER {
        return taken_entry(t, s, a, e, d);
    }
    if (kind == rows::kinds::NOUGHT) & (d.whole != 0) {
        return Err(Refusal { no: 9, place: a });
    }
    if (kind == rows::kinds::UPPER) & !is_upper(t, s, d) {
        return Err(Refusal { no: 5, place: a });
    }
    let sign = sign_of(d);
    go(e, after_of(s), kept(s, 3, sign, d.whole, d.tens as u64))
}

// A number of pairs that was read.
fn pairs_of(x: &[u8], s: State, a: usize, e: usize) -> Result<Move, Refusal>
    ensures { moved result ≡ of_pairs x.now s a e }
{
    match runs::whole::whole_in(x, a, e, limit_cell(s.param, LIMIT_HIGH)) {
        Ok(n) => taken_pairs(s, e, n),
        Err(NoForm) => Err(Refusal { no: 2, place: a }),
    }
}

// A whole number that was read.
fn whole_of(x: &[u8], s: State, a: usize, e: usize) -> Result<Move, Refusal>
    ensures { moved result ≡ of_whole x.now s a e }
{
    match runs::whole::whole_in(x, a, e, limit_cell(s.param, LIMIT_HIGH)) {
        Ok(n) => taken_whole(s, a, e, n),
        Err(NoForm) => Err(Refusal { no: 2, place: a }),
    }
}

// A decimal that was read.
fn decimal_of(x: &[u8], t: &[u64], s: State, a: usize, e: usize) -> Result<Move, Refusal>
    ensures { moved result ≡ of_decimal x.now (view_in t.now) s a e }
{
    match decimals::decimal_in(x, a, e) {
        Ok(d) => taken_decimal(t, s, a, e, d),
        Err(NoForm) => Err(Refusal { no: 2, place: a }),
    }
}

// A number in its parameter's place.
fn taken_number(x: &[u8], t: &[u64], s: State, a: usize, e: usize) -> Result<Move, Refusal>
    ensures { moved result ≡ taken_number x.now (view_in t.now) s a e }
{
    let kind = param_cell(s.param, PARAM_KIND);
    if kind == rows::kinds::PAIRS {
        return pairs_of(x, s, a, e);
    }
    if (kind == rows::kinds::WHOLE)
        | (kind == rows::kinds::POINTS)
        | (kind == rows::kinds::ALIGNMENT)
    {
        return whole_of(x, s, a, e);
    }
    decimal_of(x, t, s, a, e)
}

// A new record of section j, with its name, how many records it may hold stand before, and its block's word.
fn made(t: &[u64], s: State, a: usize, e: usize, j: u8) -> Result<Move, Refusal>
    ensures { moved result ≡ went e (after s) (new_record j 4 a e ((view_in t.now).counts (slot_of s)) s.block) }
{
    let held = count_of(t, param_cell(s.param, PARAM_SLOT)) as u64;
    let act = record_of(j, 4, a as u64, e as u64, held, s.block as u64);
    go(e, after_of(s), act)
}

// The name of a new record.
fn taken_new(x: &[u8], t: &[u64], s: State, a: usize, e: usize) -> Result<Move, Refusal>
    ensures { moved result ≡ taken_new x.now (view_in t.now) s a e }
{
    let j = param_cell(s.param, PARAM_SEC);
    if find(x, t, j, a, e).is_some() {
        return Err(Refusal { no: 6, place: a });
    }
    let c = section_of(j);
    if c.most <= count_of(t, j) {
        return Err(Refusal { no: 8, place: a });
    }
    made(t, s, a, e, j)
}

// A choice that document 01 takes.
fn chosen(s: State, a: usize, e: usize, c: u8) -> Result<Move, Refusal>
    ensures { moved result ≡ of_choice s a e (taken_choice c) }
{
    let n = c as u64;
    if (limit_cell(s.param, LIMIT_LOW) <= n) & (n <= limit_cell(s.param, LIMIT_HIGH)) {
        return go(e, after_of(s), kept(s, 1, n, 0, 0));
    }
    Err(Refusal { no: 5, place: a })
}

// A word where a choice is expected.
fn choice_of(x: &[u8], s: State, a: usize, e: usize) -> Result<Move, Refusal>
    ensures { moved result ≡ of_choice s a e (class_at x.now a e) }
{
    match words::class::class_of(x, a, e) {
        Class::TakenChoice(c) => chosen(s, a, e, c),
        Class::ListedOnly => Err(Refusal { no: 9, place: a }),
        Class::Unlisted => Err(Refusal { no: 4, place: a }),
        _ => Err(Refusal { no: 5, place: a }),
    }
}

// A name in its parameter's place.
fn taken_name(x: &[u8], t: &[u64], s: State, a: usize, e: usize) -> Result<Move, Refusal>
    ensures { moved result ≡ taken_name x.now (view_in t.now) s a e }
{
    let kind = param_cell(s.param, PARAM_KIND);
    if kind == rows::kinds::NEW {
        return taken_new(x, t, s, a, e);
    }
    if kind == rows::kinds::CHOICE {
        return choice_of(x, s, a, e);
    }
    go(e, after_of(s), kept(s, 2, a as u64, e as u64, 0))
}

// The state after a pair's text.
fn after_text(s: State) -> State
    ensures { result ≡ after_text s }
{
    if 1 < s.left {
        return State::new(ITEMS, s.block, s.param.saturating_sub(1), s.left - 1);
    }
    State::new(ITEMS, s.block, 0, 0)
}

// The text of a pair, into its entry.
fn text_act(a: u64, e: u64) -> Act
    ensures { result ≡ writes 3 2 2 a e 0 }
{
    Act {
        sec: ENTRY,
        slot: ENTRY_TEXT,
        many: 2,
        a,
        b: e,
        ..Act::nothing()
    }
}

// A string in its parameter's place.
fn taken_text(s: State, a: usize, e: usize) -> Result<Move, Refusal>
    ensures { moved result ≡ taken_text s a e }
{
    if param_cell(s.param, PARAM_KIND) == rows::kinds::TEXT {
        return go(e, after_text(s), text_act(a as u64, e as u64));
    }
    go(e, after_of(s), kept(s, 2, a as u64, e as u64, 0))
}

// A piece where a parameter is expected.
pub fn taken(x: &[u8], t: &[u64], s: State, k: u8, a: usize, e: usize) -> Result<Move, Refusal>
    ensures { moved result ≡ taken x.now (view_in t.now) s k a e }
{
    let kind = param_cell(s.param, PARAM_KIND);
    if (kind == rows::kinds::STRING) | (kind == rows::kinds::TEXT) {
        if k == TEXT {
            return taken_text(s, a, e);
        }
        return refuse(5, x, k, a, e);
    }
    if (kind == rows::kinds::NAME) | (kind == rows::kinds::CHOICE) | (kind == rows::kinds::NEW) {
        if k == NAME {
            return taken_name(x, t, s, a, e);
        }
        return refuse(5, x, k, a, e);
    }
    if k == NUMBER {
        return taken_number(x, t, s, a, e);
    }
    Err(Refusal { no: 5, place: a })
}
