// Reading the files that the arguments name.
use crate::path::text_of;
use console::called::word_at;
use console::ending::{Errors, Stop};
use console::message::{error_about, refused_size};
use std::io::Read;
use std::rt::{Env, Files};
use std::{fs, io};

// Why a file cannot be read, by the system's number.
fn unreadable(error: io::Error) -> &'static str {
    match error.raw_os_error() {
        Some(2) => "there is no such file: ",
        Some(13) => "reading is not permitted: ",
        Some(21) => "this is a folder: ",
        _ => "the file cannot be read: ",
    }
}

// Reads a file into a buffer, as far as the buffer goes: how many bytes were read, and the error that it ended with. (A `for` would be no
// plainer: each read takes `done` on by as many bytes as it gives.)
pub fn read_into(file: &mut impl Read, buffer: &mut [u8]) -> (usize, io::Result<()>) {
    let mut done: usize = 0;
    while done < buffer.len() {
        match file.read(&mut buffer[done..]) {
            Ok(0) => return (done, Ok(())),
            Ok(got) => done += got,
            Err(error) => return (done, Err(error)),
        }
    }
    (done, Ok(()))
}

// Reads the file of a path into a buffer and answers how many bytes it has, as far as the buffer goes.
fn read_path(rt: &impl Files, path: &[u8], buffer: &mut [u8]) -> io::Result<usize> {
    let mut file = fs::open(rt, text_of(path)?)?;
    let (done, ended) = read_into(&mut file, buffer);
    ended?;
    Ok(done)
}

// Reads the file that argument i names into a buffer, which has room for one byte more than the file may have, and answers the file's bytes;
// or says an error, or the refusal of what is too long.
pub fn read_file<'b>(
    rt: &(impl Files + Env + Print + Errors),
    i: u8,
    what: &str,
    buffer: &'b mut [u8],
) -> Result<&'b mut [u8], Stop> {
    let path = word_at(rt, i);
    let n = match read_path(rt, path.bytes(), buffer) {
        Ok(n) => n,
        Err(error) => return Err(error_about(rt, unreadable(error), path.bytes())),
    };
    let most = buffer.len().saturating_sub(1);
    if most < n {
        return Err(refused_size(rt, what, most));
    }
    Ok(&mut buffer[..n])
}
