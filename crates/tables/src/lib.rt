// The lent tables: their form, groups and addressing. The crate `rule` has the table rule.
#![tactic(auto)]

pub mod form;
pub mod group;
pub mod head;
pub mod method;
pub mod setting;
pub mod sizes;
