// The table rule, over the form and the groups of the lent tables.
#![tactic(auto)]

mod below;
mod conversion;
mod object;
mod part;
pub mod rule;
mod test;
mod unused;
