// Streams read into a package: all their entries or none.
#![tactic(auto)]

pub mod calls;
mod judging;
mod related;
mod shadow;
mod typed;
