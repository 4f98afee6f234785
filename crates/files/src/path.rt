// Paths: their folders, as the system is asked for them, and making, naming and removing a file of a path.
use std::fs::File;
use std::io::ErrorKind;
use std::rt::Files;
use std::{fs, io};

// The part of a path that names its folder, the last slash among it; none where it has no slash.
pub fn folder_of(path: &[u8]) -> &[u8] {
    match path.iter().rposition(|b| *b == b'/') {
        Some(slash) => &path[..=slash],
        None => b"",
    }
}

// A path as the system is asked for it, which is text; an error where it is none.
pub fn text_of(path: &[u8]) -> io::Result<&str> {
    str::from_utf8(path).map_err(|_| io::Error::from(ErrorKind::InvalidFilename))
}

// Makes a file that there was none of, to write to.
pub fn create<R: Files>(rt: &R, path: &[u8]) -> io::Result<R::File> {
    File::options()
        .write(true)
        .create_new(true)
        .open(rt, text_of(path)?)
}

// Gives a file another name.
pub fn rename(rt: &impl Files, from: &[u8], to: &[u8]) -> io::Result<()> {
    fs::rename(rt, text_of(from)?, text_of(to)?)
}

// Removes a file.
pub fn remove(rt: &impl Files, path: &[u8]) -> io::Result<()> {
    fs::remove_file(rt, text_of(path)?)
}
