// The XML streams of a package: its media types, and the relationships of a source.
#![tactic(auto)]

pub mod calls;
mod entry_lines;
mod listing;
