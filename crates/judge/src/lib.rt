// Where an object's parts stand, and whether it may: alignment, stored counts, the image's end.
#![tactic(auto)]

mod align;
mod inside;
pub mod judge;
pub mod walk;
