// A place of a text as people count it: lines and columns from 1, columns in bytes.
ghost use Rattle.std.specs.Prelude.{◌≡◌};
ghost use Rattle.ask.specs.Spot.{line_number, column_at};

// A line and a column, both from 1.
#[derive(Clone, Copy)]
pub struct Spot {
    pub line: usize,
    pub column: usize,
}

// The line and the column of a place; a place past the end counts as the end.
pub fn spot_of(x: &[u8], place: usize) -> Spot
    ensures { (result.line ≡ line_number x.now place) × (result.column ≡ column_at x.now place) }
{
    let mut line: usize = 1;
    let mut column: usize = 1;
    for i in 0..place.min(x.len()) {
        if x[i] == b'\n' {
            line += 1;
            column = 1;
        } else {
            column += 1;
        }
    }
    Spot { line, column }
}
