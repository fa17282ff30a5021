// A part cut into pieces, and pieces joined again.
#![tactic(auto)]

pub mod cutting;
pub mod joining;
mod rows;
mod splitting;
mod suffixes;
