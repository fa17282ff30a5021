// Rows in one lent buffer: how a package is stored.
#![tactic(auto)]

pub mod bytes;
pub mod changes;
mod ends;
pub mod header;
mod heap;
mod order;
pub mod rows;
mod runs;
mod slots;

// The header's bytes, a slot's, the number of slots, and where the heap starts.
const HEADER_SIZE: usize = 64;

const SLOT_SIZE: usize = 24;

pub const SLOT_COUNT: usize = 640;

const HEAP_START: usize = 32768;

// Where the header has the capacity, the number of rows, the bytes that they use, and the end of the last.
const CAPACITY_AT: usize = 8;

const COUNT_AT: usize = 12;

const USED_AT: usize = 16;

const END_AT: usize = 20;

// Where a slot has the offset of its row's bytes, the lengths of the four fields, and the tag.
const OFFSET_AT: usize = 0;

const LENGTH0_AT: usize = 4;

const LENGTH1_AT: usize = 8;

const LENGTH2_AT: usize = 12;

const LENGTH3_AT: usize = 16;

const TAG_AT: usize = 20;
