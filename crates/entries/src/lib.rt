// The entries of the four sets by position.
#![tactic(auto)]

pub mod listing;
