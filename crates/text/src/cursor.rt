// The reader's place and the answers that hand it back.

// A place in the text.
#[derive(Clone, Copy)]
pub struct Cursor {
    pub at: usize,
}

// A refusal: its number in the list of refusals, and the place in the text that it names.
// A number and no enum: Cursor::tag and grammar's refuse take any number, as their clauses say.
#[derive(Clone, Copy)]
pub struct Refusal {
    pub no: u8,
    pub place: usize,
}

// A piece of the text, from its first byte to the cursor past it; or the text's end.
#[derive(Clone, Copy)]
pub enum Token {
    Name { start: usize, next: Cursor },
    Text { start: usize, next: Cursor },
    Number { start: usize, next: Cursor },
    Begin { start: usize, next: Cursor },
    End { start: usize, next: Cursor },
    Finish { place: usize },
}

// An item of a skipped block, from its first byte to the cursor past it; or the text's end.
#[derive(Clone, Copy)]
pub enum Item {
    Run { start: usize, next: Cursor },
    Text { start: usize, next: Cursor },
    Begin { start: usize, next: Cursor },
    End { start: usize, next: Cursor },
    Finish { place: usize },
}

// An item of a skipped block that was passed, or the block's `/end`.
#[derive(Clone, Copy)]
pub enum Passed {
    Past(Cursor),
    Closes(Cursor),
}

// The tag of a block, from its first byte to the cursor past it.
#[derive(Clone, Copy)]
pub struct Tag {
    pub start: usize,
    pub next: Cursor,
}
