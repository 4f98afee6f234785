// Symbolic links: the file that a path stands for in the end.
use crate::obstacle::Obstacle;
use crate::path::{folder_of, text_of};
use console::word::Word;
use std::io::ErrorKind;
use std::rt::Files;
use std::{fs, io};

// How many links are followed at most, as the system does.
const LINKS: usize = 40;

// The path that a link's text names, from the link's own folder where it does not begin at the root.
fn target_of(path: &[u8], text: &[u8]) -> Word {
    if text.starts_with(b"/") {
        return Word::of(&[text]);
    }
    Word::of(&[folder_of(path), text])
}

// Whether a link's text could not be had: it is no path that the system can be asked for, or there is no memory for it.
fn is_unknown(error: io::Error) -> bool {
    matches!(
        error.kind(),
        ErrorKind::InvalidFilename | ErrorKind::OutOfMemory
    )
}

// The path that the link at a path names; none where it is no link.
fn follow(rt: &(impl Files + AllocGlobal), path: &[u8]) -> io::Result<Option<Word>> {
    match fs::read_link(rt, text_of(path)?) {
        Ok(target) => Ok(Some(target_of(path, target.as_str().as_bytes()))),
        Err(error) => {
            if is_unknown(error) {
                return Err(error);
            }
            Ok(None)
        }
    }
}

// The path of the file that a path stands for once every link is followed; an obstacle where the links are too many, a path is too long, or
// a link's text is not known.
pub fn resolve(rt: &(impl Files + AllocGlobal), path: &[u8]) -> Result<Word, Obstacle> {
    let mut file = Word::of(&[path]);
    for _ in 0..=LINKS {
        if file.is_full() {
            return Err(Obstacle::Links);
        }
        match follow(rt, file.bytes()) {
            Ok(Some(target)) => file = target,
            Ok(None) => return Ok(file),
            Err(_) => return Err(Obstacle::Beside),
        }
    }
    Err(Obstacle::Links)
}
