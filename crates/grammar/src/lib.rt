// The grammar: what a token does, defined; what can be asked of the records, names, and parameters.
#![tactic(auto)]

pub mod names;
pub mod parameter;
pub mod state;
pub mod view;
