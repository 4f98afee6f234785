// The program's commands `list`, `get` and `set`. Nothing of the reader rests on it.
#![tactic(auto)]

mod element;
pub mod get;
pub mod listed;
pub mod set;
