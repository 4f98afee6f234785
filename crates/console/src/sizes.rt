// The program's sizes: "The program takes 32 KiB of description and 16 KiB of image."

// The most bytes of a description and of a request file, and of an image; a buffer has one byte more, to tell a longer file.
pub const TEXT_BYTES: usize = 32768;

pub const TEXT_ROOM: usize = TEXT_BYTES + 1;

pub const IMAGE_BYTES: usize = 16384;

pub const IMAGE_ROOM: usize = IMAGE_BYTES + 1;

// The bytes of a path or an argument.
pub const WORD_ROOM: usize = 4096;

// The most bytes of a printed line: a name, its numbers and a text of the description.
pub const LINE_ROOM: usize = 36864;

// The cells of the tables and of the work room, and the most lines of a list.
pub const TABLE_CELLS: usize = 36617;

pub const WORK_CELLS: usize = 42578;

pub const LINES: usize = 4096;
