// The element and the write that a person names, and what a refused write says. Nothing of the reader rests on it.
#![tactic(auto)]

pub mod limits;
pub mod made;
pub mod requested;
