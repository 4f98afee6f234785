// What stands in the way of replacing an image's file.
use std::fmt;

#[derive(Clone, Copy, PartialEq, Eq)]
pub enum Obstacle {
    Links,
    Image,
    Kind,
    Folder,
    Note,
    Beside,
    Other,
}

// In words before the image's path.
impl fmt::Display for Obstacle {
    fn fmt<W: fmt::Write>(&self, f: &mut fmt::Formatter<W>) -> fmt::Result {
        f.write_str("nothing is written, since ")?;
        f.write_str(match self {
            Obstacle::Links => "there are too many links, or too long ones, at ",
            Obstacle::Image => "the image may not be written: ",
            Obstacle::Kind => "this is no ordinary file: ",
            Obstacle::Folder => "the folder may not be written that holds ",
            Obstacle::Note => {
                "another file has the name of the note (the image's with .writing after it) beside "
            }
            Obstacle::Beside => "no new file can be made beside ",
            Obstacle::Other => "another program writes at the same time: ",
        })
    }
}
