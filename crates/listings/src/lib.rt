// The listing of a kept list: one element's line, and the whole listing into a lent buffer.
#![tactic(auto)]

pub mod element;
pub mod whole;
