// What a person types, and how places are shown to people.
#![tactic(auto)]

pub mod spot;
pub mod typed;
