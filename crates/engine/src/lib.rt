// The engine: a description read into records, a token a step, against the grammar's definitions.
#![tactic(auto)]

mod keyword;
pub mod read;
