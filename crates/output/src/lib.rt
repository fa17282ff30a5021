// What a call that writes answers, and how it writes into a lent output.
#![tactic(auto)]

pub mod refusals;
pub mod writing;
