// Bytes and characters: folded, compared, searched.
#![tactic(auto)]

pub mod cases;
pub mod folded;
pub mod folding;
pub mod letters;
pub mod search;
pub mod starts;
pub mod texts;
pub mod units;
