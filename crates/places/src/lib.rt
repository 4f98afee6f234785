// Fractions exactly, with no product above 2^63: a decimal against a fraction, and a fraction in six places.
#![tactic(auto)]

mod divide;
pub mod limit;
pub mod six;
