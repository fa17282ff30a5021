// Parts: the groups of items that are one, their number, their names, their content.
#![tactic(auto)]

pub mod copying;
pub mod positions;
pub mod reading;
pub mod runs;
pub mod totals;
