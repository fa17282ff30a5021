// Bytes and numbers, below every other crate: read, compared, copied and moved.
#![tactic(auto)]

pub mod bytes;
pub mod moves;
pub mod numbers;
