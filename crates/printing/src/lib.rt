// Lines of the kept list on standard output. Nothing of the reader rests on it.
#![tactic(auto)]

pub mod printed;
