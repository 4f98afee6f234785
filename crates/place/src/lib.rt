// Where an object's parts stand: the types, the order of Position and the rules of place. The crate `judge` places and judges.
#![tactic(auto)]

pub mod judge;
pub mod order;
pub mod refusal;
pub mod rules;
pub mod walk;
