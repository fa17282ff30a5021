// The engine for C and Rust: each judgement and each call as one exported function. A slice is passed as its pointer and its length.
#![tactic(auto)]

pub mod calls;
pub mod fields;
pub mod iris;
pub mod judgements;
pub mod listing;
mod making;
pub mod replies;
pub mod running;
pub mod xml;
