// The program's edge: its arguments, what it says, and how it ends. Nothing of the reader rests on it.
#![tactic(auto)]

pub mod arguments;
pub mod called;
pub mod ending;
mod excerpt;
pub mod kept;
pub mod message;
pub mod sizes;
pub mod usage;
pub mod word;
