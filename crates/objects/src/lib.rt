// Each object of a description that was read: what it needs, where it stands, and the order in which objects are judged.
#![tactic(auto)]

pub mod basis;
pub mod ground;
pub mod layout;
pub mod need;
pub mod object;
