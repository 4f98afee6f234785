// "Parts stand in order of Position."
ghost use Rattle.std.specs.Prelude.{◌≡◌};
ghost use Rattle.place.specs.Order.{put_first, five, parts, in_order};

// What a layout says of one part: whether it has it, its Position and its data type.
#[derive(Clone, Copy)]
pub struct Entry {
    pub present: bool,
    pub position: u16,
    pub kind: u64,
}

// A layout: FNC_VALUES, AXIS_PTS_X, AXIS_PTS_Y, NO_AXIS_PTS_X, NO_AXIS_PTS_Y.
#[derive(Clone, Copy)]
pub struct Layout {
    pub values: Entry,
    pub x: Entry,
    pub y: Entry,
    pub nx: Entry,
    pub ny: Entry,
}

// The alignment words in force, by size; 0 where none sets one.
#[derive(Clone, Copy)]
pub struct Aligns {
    pub byte: u8,
    pub word: u8,
    pub long: u8,
}

// Which part of a layout a part is.
#[derive(Clone, Copy)]
pub enum Role {
    Values,
    PointsX,
    PointsY,
    CountX,
    CountY,
}

// A part with what its layout says of it.
#[derive(Clone, Copy)]
pub struct Part {
    pub role: Role,
    pub entry: Entry,
}

// The first of some parts is put among the others, which are in order.
fn put_first(s: &mut [Part])
    ensures { s.new ≡ put_first s.old }
{
    for i in 1..s.len() {
        if s[i - 1].entry.position < s[i].entry.position {
            return;
        }
        s.swap(i - 1, i);
    }
}

// The five parts in order of Position.
pub fn in_order(l: Layout) -> [Part; 5]
    ensures { five result ≡ in_order (parts l) }
{
    let mut s = [
        Part {
            role: Role::Values,
            entry: l.values,
        },
        Part {
            role: Role::PointsX,
            entry: l.x,
        },
        Part {
            role: Role::PointsY,
            entry: l.y,
        },
        Part {
            role: Role::CountX,
            entry: l.nx,
        },
        Part {
            role: Role::CountY,
            entry: l.ny,
        },
    ];
    put_first(&mut s[3..]);
    put_first(&mut s[2..]);
    put_first(&mut s[1..]);
    put_first(&mut s);
    s
}
