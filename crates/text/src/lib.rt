// The text layer: any bytes cut into tokens, and skipped blocks passed whole (document 01, "Words and numbers").
#![tactic(auto)]

pub mod blank;
pub mod bytes;
pub mod cursor;
pub mod item;
pub mod skip;
pub mod token;
