// Conversions: the coefficients, the limits, and from an asked value to the nearest raw number.
#![tactic(auto)]

pub mod asked;
pub mod edition;
pub mod fraction;
pub mod limit;
pub mod method;
mod round;
pub mod whole;
