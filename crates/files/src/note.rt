// The note of a new file beside the image: a new file's name has ten figures by chance, and the note, whose name the image's alone gives,
// holds them, so that the next run finds what a run that was ended by force left.
use crate::file::read_into;
use crate::obstacle::Obstacle;
use crate::path::{create, remove, text_of};
use console::word::Word;
use std::fs::OpenFile;
use std::io::{ErrorKind, Write};
use std::random::RandomSource;
use std::rt::Files;
use std::{fs, io};

// How many figures part a new file's name from those of others, and room to tell a longer note.
pub const FIGURES: usize = 10;

const NOTE_ROOM: usize = 11;

// The system's numbers for a folder that may not be written: by its mode, or on a disk that is only read.
const NOT_ALLOWED: i32 = 13;

const READ_ONLY: i32 = 30;

// Figures by chance.
pub fn figures_by_chance(rt: &impl RandomSource) -> [u8; FIGURES] {
    let mut chance = [0u8; FIGURES];
    let _ = rt.fill_bytes(&mut chance);
    chance.map(|b| b'0' + b % 10)
}

// The path of the new file with these figures; it fills all the room where it is too long.
pub fn new_path(path: &[u8], figures: &[u8]) -> Word {
    Word::of(&[path, b".", figures, b".new"])
}

// The note's path; it fills all the room where it is too long.
fn note_path(path: &[u8]) -> Word {
    Word::of(&[path, b".writing"])
}

// Removes the note.
pub fn remove_note(rt: &impl Files, path: &[u8]) -> io::Result<()> {
    remove(rt, note_path(path).bytes())
}

// Opens what has the note's name.
fn open_note<R: Files>(rt: &R, path: &[u8]) -> io::Result<R::File> {
    fs::open(rt, text_of(note_path(path).bytes())?)
}

// Whether an error says that a folder may not be written.
fn is_shut(error: io::Error) -> bool {
    matches!(error.raw_os_error(), Some(NOT_ALLOWED | READ_ONLY))
}

// Removes the note of these figures and the file that it names; fewer are of a note that was not whole, and then there is none.
fn clear_noted(rt: &impl Files, path: &[u8], figures: &[u8]) -> Result<(), Obstacle> {
    if figures.len() == FIGURES {
        let _ = remove(rt, new_path(path, figures).bytes());
    }
    match remove_note(rt, path) {
        Err(error) if is_shut(error) => Err(Obstacle::Folder),
        _ => Ok(()),
    }
}

// Removes what a run that was ended by force left, the note and the file that it names; what has the note's name and is no note stands in
// the way.
pub fn clear(rt: &impl Files, path: &[u8]) -> Result<(), Obstacle> {
    let mut room = [0u8; NOTE_ROOM];
    let Ok(mut note) = open_note(rt, path) else {
        return Ok(());
    };
    // what could be read of it
    let (n, _) = read_into(&mut note, &mut room);
    drop(note);
    match room.get(..n) {
        Some(figures) if n <= FIGURES && figures.iter().all(|b| b.is_ascii_digit()) => clear_noted(
            rt, path, figures,
        ),
        _ => Err(Obstacle::Note),
    }
}

// Writes the figures and flushes them to the disk.
fn write_figures(mut note: impl Write + OpenFile + Drop, figures: &[u8]) -> io::Result<()> {
    note.write_all(figures)?;
    note.sync_all()
}

// Makes a file of the note's name, which may be taken.
fn create_note<R: Files>(rt: &R, path: &[u8]) -> io::Result<R::File> {
    create(rt, note_path(path).bytes())
}

// What stood in the way of a note: its name is taken, the folder may not be written, or something else failed.
fn unmade(error: io::Error) -> Obstacle {
    if error.kind() == ErrorKind::AlreadyExists {
        return Obstacle::Note;
    }
    if is_shut(error) {
        return Obstacle::Folder;
    }
    Obstacle::Beside
}

// Makes the note of these figures; its name may be taken.
pub fn make_note(rt: &impl Files, path: &[u8], figures: &[u8]) -> Result<(), Obstacle> {
    let note = create_note(rt, path).map_err(unmade)?;
    if write_figures(note, figures).is_err() {
        let _ = remove_note(rt, path);
        return Err(Obstacle::Beside);
    }
    Ok(())
}
