// What a listing has, and a printed line into a lent buffer.
#![tactic(auto)]

pub mod line;
