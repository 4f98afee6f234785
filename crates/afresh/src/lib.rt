// Lines of the value list worked out afresh: all of them, or those whose elements have a byte in common with what was written.
#![tactic(auto)]

mod apart;
pub mod refresh;
