// Streams of XML, read from left to right: marks, tags, elements.
#![tactic(auto)]

pub mod attributes;
pub mod comments;
pub mod decoding;
pub mod elements;
pub mod entries;
pub mod fields;
pub mod forms;
pub mod marks;
pub mod names;
pub mod pieces;
pub mod reader;
pub mod repeats;
pub mod streams;
pub mod tags;
pub mod values;
