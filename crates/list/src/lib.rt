// The value list: making it, and writes.
#![tactic(auto)]

pub mod make;
pub mod store;
pub mod write;
