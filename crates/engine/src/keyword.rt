// A token where a keyword is expected: bare, after `/begin`, after `/end`.
ghost use Rattle.std.specs.Prelude.{◌≡◌, ◌≤◌, ◌-◌, length};
ghost use Rattle.words.specs.Class.{class_at};
ghost use Rattle.rows.specs.Codes.{MODULE};
ghost use Rattle.rows.specs.Rows.{rows, needed};
ghost use Rattle.grammar.specs.Move.{view_in, moved};
ghost use Rattle.grammar.specs.Keyword.{row_from, row_of, may_stand, axes_of, limit_of, is_often, one_more, counting, stands, plain_row, home_of, bare_word, levels_in, skips, opens, begun_word, is_met, all_met, ends, holder_of, closes, ended_word, item, after_begin, after_end};

use grammar::parameter::{BEGIN, END, NAME, go, refuse};
use grammar::state::{Act, BEGUN, ENDED, ITEMS, Move, OVER, State};
use grammar::view::{AXIS, OBJECT, current_of};
use rows::cells::{
    NEED_BLOCK, NEED_HIGH, NEED_LEAST, NEED_LOW, NEED_SEC, NEED_SLOT, NEED_WHEN, ROW_ADDS,
    ROW_FIRST, ROW_HIGH, ROW_LOW, ROW_ONCE, ROW_OPENS, ROW_SEC, ROW_WHEN,
};
use rows::slots::OBJECT_TYPE;
use rows::{NEED_COUNT, ROW_COUNT, is_row, need_cell, row_cell};
use text::cursor::{Cursor, Refusal};
use words::class::{Class, class_of};
use words::codes::{
    AXIS_DESCR, AXIS_PTS, CHARACTERISTIC, COMPU_METHOD, COMPU_VTAB, CURVE, MAP, MEASUREMENT,
    MOD_COMMON, MODULE, PROJECT, RECORD_LAYOUT,
};

// No block: what stands before PROJECT. Any block: where the skipped keywords stand.
const FILE: u8 = 0;

const ANY: u8 = 255;

// A row that is refused as outside the scope.
const OUTSIDE: u8 = 2;

// A row of MODULE's that the row of the word w does not come before: the search from there on finds what the search from the first row finds.
fn module_row(w: u8) -> u8
    ensures within { result ≤ 45 }
    ensures found { row_from (length rows - result) result MODULE w ≡ row_of MODULE w }
{
    match w {
        AXIS_PTS => 22,
        CHARACTERISTIC => 25,
        MEASUREMENT => 34,
        _ => 0,
    }
}

// A row that the row of the word w in the block b does not come before, the first of the block's rows as a rule.
fn first_row(b: u8, w: u8) -> u8
    ensures within { result ≤ 45 }
    ensures found { row_from (length rows - result) result b w ≡ row_of b w }
{
    match b {
        MODULE => module_row(w),
        MOD_COMMON => 3,
        COMPU_METHOD => 8,
        COMPU_VTAB => 12,
        RECORD_LAYOUT => 14,
        AXIS_PTS => 23,
        CHARACTERISTIC => 26,
        AXIS_DESCR => 31,
        MEASUREMENT => 35,
        ANY => 38,
        _ => 0,
    }
}

// The row of the word w in the block b; the row past all where there is none.
fn row_of(b: u8, w: u8) -> u8
    ensures { result ≡ row_of b w }
{
    for i in first_row(b, w)..ROW_COUNT {
        if is_row(i, b, w) {
            return i;
        }
    }
    ROW_COUNT
}

// Whether the current record lets row i stand.
fn may_stand(t: &[u64], i: u8) -> bool
    ensures { result ≡ may_stand (view_in t.now) i }
{
    let when = row_cell(i, ROW_WHEN);
    let held = current_of(t, row_cell(i, ROW_SEC), when as u16);
    let low = row_cell(i, ROW_LOW) as u64;
    let high = row_cell(i, ROW_HIGH) as u64;
    (when == 0) | ((low <= held) & (held <= high))
}

// How many AXIS_DESCR a type has.
fn axes_of(kind: u64) -> u64
    ensures { result ≡ axes_of kind }
{
    if kind == MAP as u64 {
        return 2;
    }
    if kind == CURVE as u64 {
        return 1;
    }
    0
}

// How often the keyword of row i may stand.
fn limit_of(t: &[u64], i: u8) -> u64
    ensures { result ≡ limit_of (view_in t.now) i }
{
    if row_cell(i, ROW_ADDS) == AXIS {
        return axes_of(current_of(t, OBJECT, OBJECT_TYPE));
    }
    1
}

// Whether the keyword of row i was there as often as it may.
fn is_often(t: &[u64], i: u8) -> bool
    ensures { result ≡ is_often (view_in t.now) i }
{
    let once = row_cell(i, ROW_ONCE);
    let seen = current_of(t, row_cell(i, ROW_SEC), once as u16);
    (once != 0) & (limit_of(t, i) <= seen)
}

// One more, at most 255.
fn one_more(n: u64) -> u64
    ensures { result ≡ one_more n }
{
    n.min(254) + 1
}

// What counts the keyword of row i, and adds the record that it opens.
fn counting_of(t: &[u64], i: u8) -> Act
    ensures { result ≡ counting (view_in t.now) i }
{
    let slot = row_cell(i, ROW_ONCE);
    if slot == 0 {
        return Act::nothing();
    }
    let sec = row_cell(i, ROW_SEC);
    let seen = current_of(t, sec, slot as u16);
    Act {
        adds: row_cell(i, ROW_ADDS),
        sec,
        slot,
        many: 1,
        a: one_more(seen),
        ..Act::nothing()
    }
}

// The keyword of row i, whose block is then `inner`.
fn stand(t: &[u64], i: u8, inner: u8, a: usize, e: usize) -> Result<Move, Refusal>
    ensures { moved result ≡ stands (view_in t.now) i inner a e }
{
    if may_stand(t, i) {
        if is_often(t, i) {
            return Err(Refusal { no: 6, place: a });
        }
        let state = State::new(ITEMS, inner, row_cell(i, ROW_FIRST), 0);
        return go(e, state, counting_of(t, i));
    }
    Err(Refusal { no: 5, place: a })
}

// A plain keyword of row i.
fn plain_row(t: &[u64], s: State, i: u8, a: usize, e: usize) -> Result<Move, Refusal>
    ensures { moved result ≡ plain_row (view_in t.now) s i a e }
{
    if i < ROW_COUNT {
        if row_cell(i, ROW_OPENS) == OUTSIDE {
            return Err(Refusal { no: 9, place: a });
        }
        return stand(t, i, s.block, a, e);
    }
    Err(Refusal { no: 5, place: a })
}

// Where the rows of the skipped keywords stand that may be in the block b.
fn home_of(b: u8) -> u8
    ensures { result ≡ home_of b }
{
    if b == FILE { FILE } else { ANY }
}

// A bare word.
fn bare_word(x: &[u8], t: &[u64], s: State, a: usize, e: usize) -> Result<Move, Refusal>
    ensures { moved result ≡ bare_word (view_in t.now) s a e (class_at x.now a e) }
{
    match class_of(x, a, e) {
        Class::TakenPlain(c) => plain_row(t, s, row_of(s.block, c), a, e),
        Class::SkippedPlain(c) => plain_row(t, s, row_of(home_of(s.block), c), a, e),
        Class::ListedOnly => Err(Refusal { no: 9, place: a }),
        Class::Unlisted => Err(Refusal { no: 4, place: a }),
        _ => Err(Refusal { no: 5, place: a }),
    }
}

// How many levels a block inside the block b may still hold.
fn levels_in(b: u8) -> u8
    ensures { result ≡ levels_in b }
{
    match b {
        PROJECT => 14,
        MODULE => 13,
        AXIS_DESCR => 11,
        _ => 12,
    }
}

// Past the skipped block whose word stands from a up to e.
#[tactic(auto, unfolding(grammar::specs::Keyword::skips))]
fn skip(x: &[u8], s: State, a: usize, e: usize) -> Result<Move, Refusal>
    ensures { moved result ≡ skips x.now s a e }
{
    let block = s.block;
    if block == FILE {
        return Err(Refusal { no: 5, place: a });
    }
    let word = Cursor { at: e };
    let past = word.skip_block(x, a, levels_in(block))?;
    go(past.at, State::new(ITEMS, block, 0, 0), Act::nothing())
}

// The block of the word c opens.
fn open(t: &[u64], s: State, c: u8, a: usize, e: usize) -> Result<Move, Refusal>
    ensures { moved result ≡ opens (view_in t.now) s c a e }
{
    let i = row_of(s.block, c);
    if i < ROW_COUNT {
        return stand(t, i, c, a, e);
    }
    Err(Refusal { no: 5, place: a })
}

// The word after `/begin`.
fn begun_word(x: &[u8], t: &[u64], s: State, a: usize, e: usize) -> Result<Move, Refusal>
    ensures { moved result ≡ begun_word x.now (view_in t.now) s a e (class_at x.now a e) }
{
    match class_of(x, a, e) {
        Class::TakenBlock(c) => open(t, s, c, a, e),
        Class::SkippedBlock(_) => skip(x, s, a, e),
        Class::ListedOnly => Err(Refusal { no: 9, place: a }),
        Class::Unlisted => Err(Refusal { no: 4, place: a }),
        _ => Err(Refusal { no: 5, place: a }),
    }
}

// Whether need i of the block b is met.
fn is_met(t: &[u64], b: u8, i: u8) -> bool
    ensures { result ≡ is_met (view_in t.now) b i }
{
    if need_cell(i, NEED_BLOCK) != b {
        return true;
    }
    let sec = need_cell(i, NEED_SEC);
    let when = need_cell(i, NEED_WHEN);
    let held = current_of(t, sec, when as u16);
    let low = need_cell(i, NEED_LOW) as u64;
    let high = need_cell(i, NEED_HIGH) as u64;
    let there = current_of(t, sec, need_cell(i, NEED_SLOT) as u16);
    let asked = (when == 0) | ((low <= held) & (held <= high));
    !asked | (need_cell(i, NEED_LEAST) as u64 <= there)
}

// Whether all needs of the block b are met.
fn all_met(t: &[u64], b: u8) -> bool
    ensures { result ≡ all_met (length needed) (view_in t.now) b 0 }
{
    for i in 0..NEED_COUNT {
        if !is_met(t, b, i) {
            return false;
        }
    }
    true
}

// `/end`.
fn end(t: &[u64], s: State, a: usize, e: usize) -> Result<Move, Refusal>
    ensures { moved result ≡ ends (view_in t.now) s a e }
{
    let block = s.block;
    if block == FILE {
        return Err(Refusal { no: 3, place: a });
    }
    if all_met(t, block) {
        return go(e, State::new(ENDED, block, 0, 0), Act::nothing());
    }
    Err(Refusal { no: 5, place: a })
}

// The block that holds the block b.
fn holder_of(b: u8) -> u8
    ensures { result ≡ holder_of b }
{
    match b {
        PROJECT => FILE,
        MODULE => PROJECT,
        AXIS_DESCR => CHARACTERISTIC,
        _ => MODULE,
    }
}

// The open block closes.
fn close(s: State, a: usize, e: usize) -> Result<Move, Refusal>
    ensures { moved result ≡ closes s a e }
{
    let block = s.block;
    if block == PROJECT {
        return go(e, State::new(OVER, FILE, 0, 0), Act::nothing());
    }
    go(e, State::new(ITEMS, holder_of(block), 0, 0), Act::nothing())
}

// The word after `/end`.
fn ended_word(x: &[u8], s: State, a: usize, e: usize) -> Result<Move, Refusal>
    ensures { moved result ≡ ended_word s a e (class_at x.now a e) }
{
    match class_of(x, a, e) {
        Class::TakenBlock(c) => {
            if c == s.block {
                return close(s, a, e);
            }
            Err(Refusal { no: 3, place: a })
        }
        _ => Err(Refusal { no: 3, place: a }),
    }
}

// A piece where a keyword or a mark is expected.
pub fn item(x: &[u8], t: &[u64], s: State, k: u8, a: usize, e: usize) -> Result<Move, Refusal>
    ensures { moved result ≡ item x.now (view_in t.now) s k a e }
{
    if k == NAME {
        return bare_word(x, t, s, a, e);
    }
    if k == BEGIN {
        return go(e, State::new(BEGUN, s.block, 0, 0), Act::nothing());
    }
    if k == END {
        return end(t, s, a, e);
    }
    refuse(5, x, k, a, e)
}

// A piece after `/begin`.
pub fn after_begin(
    x: &[u8],
    t: &[u64],
    s: State,
    k: u8,
    a: usize,
    e: usize,
) -> Result<Move, Refusal>
    ensures { moved result ≡ after_begin x.now (view_in t.now) s k a e }
{
    if k == NAME {
        return begun_word(x, t, s, a, e);
    }
    refuse(5, x, k, a, e)
}

// A piece after `/end`.
pub fn after_end(x: &[u8], s: State, k: u8, a: usize, e: usize) -> Result<Move, Refusal>
    ensures { moved result ≡ after_end x.now s k a e }
{
    if k == NAME {
        return ended_word(x, s, a, e);
    }
    refuse(3, x, k, a, e)
}
