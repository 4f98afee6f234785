// Each answer as a number: what the C functions answer.
#![tactic(auto)]

pub mod told;
pub mod version;
