// Document 000's words, and what document 01 does with each.
#![tactic(auto)]

pub mod class;
pub mod codes;
mod of_14_to_28;
mod of_3_to_8;
mod of_9_to_13;
