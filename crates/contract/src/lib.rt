// What a call on a lent package answers, and how its rows are searched, put in and taken out.
#![tactic(auto)]

pub mod answers;
pub mod entries;
pub mod gate;
pub mod search;

// The sets, in the order of their rows.
pub const ITEMS: usize = 0;

pub const DEFAULTS: usize = 1;

pub const OVERRIDES: usize = 2;

pub const RELATIONSHIPS: usize = 3;

// The tags of rows: those of items are below the first of these. The tag of a relationship is that of an internal one, and its mode more.
pub const DEFAULT_TAG: usize = 32768;

pub const OVERRIDE_TAG: usize = 32769;

pub const RELATIONSHIP_TAG: usize = 32770;

pub const EXTERNAL_TAG: usize = 32771;

// How many entries each set may have.
pub const ITEM_LIMIT: usize = 256;

pub const DEFAULT_LIMIT: usize = 64;

pub const OVERRIDE_LIMIT: usize = 64;

pub const RELATIONSHIP_LIMIT: usize = 256;

// The greatest capacity of a package, and how many bytes its buffer has besides.
pub const CAPACITY_LIMIT: u64 = 1000000;

pub const OVERHEAD: usize = 32768;
