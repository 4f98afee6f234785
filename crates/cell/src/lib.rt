// One element's bytes and its raw number: data types, byte order, two's complement, masks.
#![tactic(auto)]

mod bytes;
pub mod kind;
mod mask;
pub mod raw;
mod sign;
pub mod size;
