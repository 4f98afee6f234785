// The tables' records from the description's: rows of objects, methods and verbal tables, and the parts of a group's row.
#![tactic(auto)]

pub mod method;
pub mod object;
pub mod part;
pub mod row;
pub mod table;
