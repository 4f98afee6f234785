// Replacing the image's file as a whole: a new file in the same folder is written, gets the image's group, owner and mode, is flushed, and
// then takes the image's name. Whatever happens on the way, the image's name stands for the old bytes or for the new ones. Where it is a
// link, the link stays and the file that it leads to is replaced.
//
// The new file is IMAGE.FIGURES.new with ten figures by chance, so that no program ever gives the image's name to a file that another still
// writes. The figures are noted in IMAGE.writing before the new file is made, and the note is removed after it. A run that is ended by
// force may leave the two files; the next one that writes the image finds the note and removes both. Of two programs that write one image at
// the same time, the later one takes the other for one that was ended: either the other is ahead, and then the later one wins, or its new
// file is gone, and then it says an error and has written nothing. (A program whose note another has taken away so, and that is then ended
// by force itself, leaves a new file that no note names.)
use crate::link::resolve;
use crate::note::{clear, figures_by_chance, make_note, new_path, remove_note};
use crate::obstacle::Obstacle;
use crate::path::{create, folder_of, remove, rename, text_of};
use crate::status::{Status, status_of};
use console::arguments::IMAGE;
use console::called::word_at;
use console::ending::{Ending, Errors};
use console::message::error_about;
use std::fs::{File, OpenFile, Permissions};
use std::io::Write;
use std::os::fd::AsFd;
use std::os::unix::fs::{PermissionsExt, fchown};
use std::random::RandomSource;
use std::rt::{Env, Files};
use std::{fs, io};

// The bits of a mode: that someone may write, and all that are set by hand.
const WRITE_BITS: u32 = 0o222;

const MODE_BITS: u32 = 0o7777;

// The mode of a new file that is not whole yet: its owner's alone.
const OWN_MODE: u32 = 0o600;

// What replacing an image's file takes of the system: files, the arguments, chance, memory, and where errors are said.
pub trait Edits: Files<File = File> + Env + RandomSource + AllocGlobal + Errors {}

impl<R: Files<File = File> + Env + RandomSource + AllocGlobal + Errors> Edits for R {}

// Gives a file the image's group and owner, each where that is allowed, then the image's mode.
fn give(file: &(impl OpenFile + AsFd), status: Status) -> io::Result<()> {
    let _ = fchown(file, None, Some(status.group));
    let _ = fchown(file, Some(status.owner), None);
    file.set_permissions(Permissions::from_mode(status.mode & MODE_BITS))
}

// Writes the bytes to a new file, which nobody else may read on the way, gives it what the image has and flushes it to the disk.
fn fill(
    mut file: impl Write + OpenFile + AsFd + Drop,
    status: Status,
    image: &[u8],
) -> io::Result<()> {
    file.set_permissions(Permissions::from_mode(OWN_MODE))?;
    file.write_all(image)?;
    give(&file, status)?;
    file.sync_all()
}

// Writes the new file and gives it the image's name; removes it where that fails. Where it is gone, another program has taken it away.
fn replace_by(
    rt: &impl Files<File = File>,
    path: &[u8],
    new: &[u8],
    status: Status,
    image: &[u8],
) -> Result<(), Obstacle> {
    let Ok(file) = create(rt, new) else {
        return Err(Obstacle::Beside);
    };
    if fill(file, status, image).is_ok() && rename(rt, new, path).is_ok() {
        return Ok(());
    }
    if remove(rt, new).is_ok() {
        return Err(Obstacle::Beside);
    }
    Err(Obstacle::Other)
}

// Notes the figures of the new file, replaces the file, and takes the note away, unless another program has taken this one for ended: then
// it is the other's.
fn replace_noted(
    rt: &(impl Files<File = File> + RandomSource),
    path: &[u8],
    status: Status,
    image: &[u8],
) -> Result<(), Obstacle> {
    let figures = figures_by_chance(rt);
    make_note(rt, path, &figures)?;
    let replaced = replace_by(rt, path, new_path(path, &figures).bytes(), status, image);
    if replaced != Err(Obstacle::Other) {
        let _ = remove_note(rt, path);
    }
    replaced
}

// The status of what was opened, which is closed; an error where it could not be opened.
fn status_closed(opened: io::Result<impl OpenFile + Drop>) -> io::Result<Status> {
    status_of(&opened?)
}

// Whether a mode lets anyone write. Where it does not, nobody writes here, not even who may write everything.
fn is_write_mode(mode: u32) -> bool {
    mode & WRITE_BITS != 0
}

// Whether a folder may be written by its mode, where it can be known. What else keeps it from being written shows when the note is made.
fn is_open(rt: &impl Files, folder: &[u8]) -> bool {
    let Ok(name) = text_of(folder) else {
        return false;
    };
    match status_closed(fs::open(rt, name)) {
        Ok(status) => is_write_mode(status.mode),
        Err(_) => true,
    }
}

// Whether the folder that holds a file may be written.
fn is_folder_open(rt: &impl Files, path: &[u8]) -> bool {
    let folder = folder_of(path);
    is_open(rt, if folder.is_empty() { b"." } else { folder })
}

// Opens a file to read and write it.
fn open_update<R: Files>(rt: &R, path: &[u8]) -> io::Result<R::File> {
    File::options()
        .read(true)
        .write(true)
        .open(rt, text_of(path)?)
}

// The status of a file that is no link, where it and its folder may be written.
fn status_to_replace(rt: &impl Files, path: &[u8]) -> Result<Status, Obstacle> {
    let Ok(status) = status_closed(open_update(rt, path)) else {
        return Err(Obstacle::Image);
    };
    if !status.ordinary {
        return Err(Obstacle::Kind);
    }
    if !is_write_mode(status.mode) {
        return Err(Obstacle::Image);
    }
    if !is_folder_open(rt, path) {
        return Err(Obstacle::Folder);
    }
    Ok(status)
}

// Replaces the file that a path stands for: what an ended run left is removed, then the new file is noted, written and renamed.
fn replace_at(
    rt: &(impl Files<File = File> + RandomSource + AllocGlobal),
    path: &[u8],
    image: &[u8],
) -> Result<(), Obstacle> {
    let file = resolve(rt, path)?;
    let status = status_to_replace(rt, file.bytes())?;
    clear(rt, file.bytes())?;
    replace_noted(rt, file.bytes(), status, image)
}

// Replaces the image's file; where something stands in the way, that is said, and the file is as it was.
pub fn keep(rt: &impl Edits, image: &[u8]) -> Ending {
    let path = word_at(rt, IMAGE);
    replace_at(rt, path.bytes(), image).map_err(|obstacle| error_about(rt, obstacle, path.bytes()))
}
