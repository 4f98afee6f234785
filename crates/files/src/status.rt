// What is known of an open file: whether it is an ordinary one, its mode, its owner and its group.
use std::fs::OpenFile;
use std::io;
use std::os::unix::fs::MetadataExt;

#[derive(Clone, Copy)]
pub struct Status {
    pub ordinary: bool,
    pub mode: u32,
    pub owner: u32,
    pub group: u32,
}

// The status of an open file.
pub fn status_of(file: &impl OpenFile) -> io::Result<Status> {
    let known = file.metadata()?;
    Ok(Status {
        ordinary: known.is_file(),
        mode: known.mode(),
        owner: known.uid(),
        group: known.gid(),
    })
}
