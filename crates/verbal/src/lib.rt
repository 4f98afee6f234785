// Verbal tables: the text of a raw number.
#![tactic(auto)]

pub mod text;
