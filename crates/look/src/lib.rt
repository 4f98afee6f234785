// The value list's definitions, and what reads and changes nothing: one element, what every call tests first.
#![tactic(auto)]

pub mod bytes;
pub mod check;
pub mod element;
pub mod meaning;
pub mod method;
pub mod read;
pub mod refusal;
pub mod room;
