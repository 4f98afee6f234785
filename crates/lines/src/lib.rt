// A text's lines, and a line's fields.
#![tactic(auto)]

pub mod field;
