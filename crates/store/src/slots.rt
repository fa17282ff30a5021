// The slots: each tells where a row's bytes lie, how long its fields are, and its tag.
ghost use Rattle.std.specs.Prelude.{◌≡◌, ◌+◌, ◌^◌, ◌≤◌, ◌<◌, length, MatchOption};
ghost use Rattle.base.specs.Buffer.{splice};
ghost use Rattle.store.specs.Buffer.{num4};
ghost use Rattle.store.specs.Layout.{slot_size, slot_count, heap_start, slot_of, slot_bytes, off_of, size_of};
ghost use Rattle.store.specs.Places.{Lowest, AllBelow};

use crate::bytes::{get4, put4};
use crate::{
    HEADER_SIZE, LENGTH0_AT, LENGTH1_AT, LENGTH2_AT, LENGTH3_AT, OFFSET_AT, SLOT_SIZE, TAG_AT,
};

// What a slot tells: where a row's bytes lie in the heap, how long its fields are, and its tag.
#[derive(Clone, Copy)]
pub(crate) struct Slot {
    pub(crate) offset: usize,
    pub(crate) length0: usize,
    pub(crate) length1: usize,
    pub(crate) length2: usize,
    pub(crate) length3: usize,
    pub(crate) tag: usize,
}

// Writes a slot.
pub(crate) fn put_slot(pkg: &mut [u8], at: usize, s: Slot)
    requires slot_size_in_bounds { at + slot_size ≤ length pkg.old }
    requires low { (s.offset < 2 ^ 32) × (s.length0 < 2 ^ 32) × (s.length1 < 2 ^ 32) × (s.length2 < 2 ^ 32) × (s.length3 < 2 ^ 32) × (s.tag < 2 ^ 32) }
    ensures { pkg.new ≡ splice pkg.old at (slot_bytes s.offset s.length0 s.length1 s.length2 s.length3 s.tag) }
{
    put4(pkg, at, s.offset);
    put4(pkg, at + LENGTH0_AT, s.length0);
    put4(pkg, at + LENGTH1_AT, s.length1);
    put4(pkg, at + LENGTH2_AT, s.length2);
    put4(pkg, at + LENGTH3_AT, s.length3);
    put4(pkg, at + TAG_AT, s.tag);
}

// The number at k in slot i.
pub(crate) fn number(pkg: &[u8], i: usize, k: usize) -> usize
    requires { (i < slot_count) × (k + 4 ≤ slot_size) × (heap_start ≤ length pkg.now) }
    ensures { (result ≡ num4 (slot_of pkg.now i) k) × (result < 2 ^ 32) }
{
    get4(pkg, HEADER_SIZE + SLOT_SIZE * i + k)
}

// Where the bytes of row i lie in the heap.
pub(crate) fn offset(pkg: &[u8], i: usize) -> usize
    requires { (i < slot_count) × (heap_start ≤ length pkg.now) }
    ensures { (result ≡ off_of (slot_of pkg.now i)) × (result < 2 ^ 32) }
{
    number(pkg, i, OFFSET_AT)
}

// How many bytes row i has.
pub(crate) fn size(pkg: &[u8], i: usize) -> usize
    requires { (i < slot_count) × (heap_start ≤ length pkg.now) }
    ensures { (result ≡ size_of (slot_of pkg.now i)) × (result < 2 ^ 34) }
{
    number(pkg, i, LENGTH0_AT)
        + number(pkg, i, LENGTH1_AT)
        + number(pkg, i, LENGTH2_AT)
        + number(pkg, i, LENGTH3_AT)
}

// One of the n rows whose bytes begin lowest in the heap, at or above c. Of `filter` and `min_by_key` the check leaves the result open. The scan has no
// `Option`: with one the compiler chooses without a branch at each row, which takes 1.6 times as long.
pub(crate) fn lowest(pkg: &[u8], n: usize, c: usize) -> Option<usize>
    requires { (n ≤ slot_count) × (heap_start ≤ length pkg.now) }
    ensures { MatchOption result (AllBelow pkg.now n c) (λ r. Lowest pkg.now n c r) }
{
    let mut r = n;
    let mut least: usize = 0x100000000;
    for i in 0..n {
        let o = offset(pkg, i);
        if o == c {
            return Some(i);
        }
        if (c <= o) & (o < least) {
            r = i;
            least = o;
        }
    }
    if r < n {
        return Some(r);
    }
    None
}
