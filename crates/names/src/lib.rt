// Names: part names, item names, media types, extensions, ids, IRIs.
#![tactic(auto)]

pub mod iris;
pub mod items;
pub mod members;
pub mod parts;
mod plain;
pub mod table;
pub mod types;
mod units;
