// IRIs: taking apart, and resolving references.
#![tactic(auto)]

pub mod dots;
pub mod references;
pub mod split;
