// The lines that the program `sheet` reads, and those that it prints.
#![tactic(auto)]

pub mod gathering;
pub mod parsing;
pub mod printing;
