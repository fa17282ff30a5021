// Media types: Defaults, Overrides, the type of a part, and the entry that gives it.
#![tactic(auto)]

pub mod calls;
pub mod media;
pub mod origin;
