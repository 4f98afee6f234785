// What a write wants of an element: whether it may be written, the raw number, and the bytes that hold it.
#![tactic(auto)]

pub mod stand;
pub mod stored;
pub mod wanted;
