// The calls on items: start, put, drop, find, view.
#![tactic(auto)]

pub mod calls;
pub mod clashes;
pub mod places;
pub mod wanted;
