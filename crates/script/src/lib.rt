// Scripts: calls in bytes.
#![tactic(auto)]

pub mod heads;
pub mod numbers;
