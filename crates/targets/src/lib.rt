// Sources and targets of relationships, and the names of Relationships parts.
#![tactic(auto)]

pub mod relationships;
pub mod targets;
