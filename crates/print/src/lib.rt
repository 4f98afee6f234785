// Bytes, figures, signed numbers and parts of a text, put into a lent buffer.
#![tactic(auto)]

pub mod figures;
pub mod slice;
