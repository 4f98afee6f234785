// The program's files: reading those that the arguments name, and replacing an image's. Nothing of the reader rests on it.
#![tactic(auto)]

pub mod file;
mod link;
mod note;
mod obstacle;
mod path;
pub mod replace;
mod status;
