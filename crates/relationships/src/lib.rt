// Relationships: put, drop and resolve.
#![tactic(auto)]

pub mod calls;
pub mod resolving;
