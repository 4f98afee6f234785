// What a raw number means by its coefficients, and what is shown of it.
#![tactic(auto)]

pub mod fraction;
