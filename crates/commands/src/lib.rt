// The commands of the program `sheet`, run on a package.
#![tactic(auto)]

pub mod feeding;
pub mod listing;
pub mod running;
