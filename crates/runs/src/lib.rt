// Whole numbers as a run of bytes writes them, and whether a run has the form of any number.
#![tactic(auto)]

pub mod form;
pub mod whole;
