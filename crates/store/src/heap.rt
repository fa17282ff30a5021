// The heap: the bytes of the rows' fields. New bytes go to its end; bytes that were left behind are reclaimed when the end has no room.
ghost use Rattle.std.specs.Prelude.{◌≡◌, ◌++◌, ◌+◌, ◌^◌, ◌≤◌, ◌<◌, length, MatchOption};
ghost use Rattle.base.specs.Buffer.{splice};
ghost use Rattle.store.specs.Layout.{slot_count, heap_start, heap_size, count_of, end_of, slot_of, off_of};
ghost use Rattle.store.specs.Packages.{Shape, Sound, Gathered};
ghost use Rattle.store.specs.Places.{EndWithout, Settled, Unsettled, Placed};

use crate::bytes::{get4, put4};
use crate::order::{is_ordered, order};
use crate::runs::gather_runs;
use crate::slots::{lowest, offset, size};
use crate::{COUNT_AT, END_AT, HEADER_SIZE, HEAP_START, SLOT_SIZE, USED_AT};
use base::moves::{copy_in, shift};

const MAX_OFFSET: usize = 0xFFFFFFFF;

// Copies four fields in, one after the other.
pub(crate) fn put_fields(pkg: &mut [u8], at: usize, f0: &[u8], f1: &[u8], f2: &[u8], f3: &[u8])
    requires { at + (length f0.now + (length f1.now + (length f2.now + length f3.now))) ≤ length pkg.old }
    ensures { pkg.new ≡ splice pkg.old at (f0.now ++ (f1.now ++ (f2.now ++ f3.now))) }
{
    let a1 = at + f0.len();
    let a2 = a1 + f1.len();
    let a3 = a2 + f2.len();
    copy_in(pkg, at, f0);
    copy_in(pkg, a1, f1);
    copy_in(pkg, a2, f2);
    copy_in(pkg, a3, f3);
}

// How many bytes the heap has, as far as offsets of four bytes reach.
pub(crate) fn heap_size(pkg: &[u8]) -> usize
    requires { heap_start ≤ length pkg.now }
    ensures { result ≡ heap_size pkg.now }
{
    let n = pkg.len() - HEAP_START;
    if n < MAX_OFFSET { n } else { MAX_OFFSET }
}

// The end of the heap's n rows without one whose k bytes lie at o, where it was e with it.
pub(crate) fn end_without(n: usize, e: usize, o: usize, k: usize) -> usize
    requires { (o < 2 ^ 32) × (k < 2 ^ 34) }
    ensures { EndWithout n e o k result }
{
    if n == 1 {
        return 0;
    }
    if o + k == e {
        return o;
    }
    e
}

// Moves the bytes of row r down to c, if they lie before e, and tells its slot; answers how many, if it has some. A row of a foreign buffer may have none.
fn settle(pkg: &mut [u8], r: usize, c: usize, e: usize) -> Option<usize>
    requires { (r < slot_count) × (c ≤ e) × (e + heap_start ≤ length pkg.old) × (e < 2 ^ 32) × (c ≤ off_of (slot_of pkg.old r)) }
    ensures { MatchOption result (Unsettled pkg.old pkg.new r c e) (λ k. (0 < k) × Settled pkg.old pkg.new r c e k) }
{
    let o = offset(pkg, r);
    let k = size(pkg, r);
    if e < o + k {
        return None;
    }
    shift(pkg, HEAP_START + o, HEAP_START + c, k);
    put4(pkg, HEADER_SIZE + SLOT_SIZE * r, c);
    if k == 0 {
        return None;
    }
    Some(k)
}

// Gathers the rows' bytes at the heap's start: each time the lowest row is looked for. In a sound package every row can be settled.
fn gather_each(pkg: &mut [u8], n: usize, e: usize)
    requires { Shape pkg.old × (n ≡ count_of pkg.old) × (e ≡ end_of pkg.old) × (e < 2 ^ 32) }
    ensures { Sound pkg.old → Gathered pkg.old pkg.new }
{
    let mut c = 0;
    while let Some(r) = lowest(pkg, n, c) {
        let Some(k) = settle(pkg, r, c, e) else {
            return;
        };
        c += k;
    }
    put4(pkg, END_AT, c);
}

// Gathers the rows' bytes at the heap's start, in the order in which they lie. Rows for which no order is confirmed are looked for one by one: so it is with a few.
// Not inlined, since its arrays would then lie on the stack of every call that may gather.
#[inline(never)]
fn compact(pkg: &mut [u8])
    requires { Shape pkg.old }
    ensures { Sound pkg.old → Gathered pkg.old pkg.new }
{
    let n = get4(pkg, COUNT_AT);
    let e = get4(pkg, END_AT);
    let t = order(pkg, n, e);
    if is_ordered(pkg, &t[..n]) {
        gather_runs(pkg, &t[..n], e);
        return;
    }
    gather_each(pkg, n, e);
}

// Where the heap has room for k bytes more: at its end, once the rows are gathered if they must be. Where the end is the bytes in use, there is no gap.
pub(crate) fn free_place(pkg: &mut [u8], k: usize) -> usize
    requires shape { Shape pkg.old }
    requires k_bound { k < 2 ^ 32 }
    ensures { (result < 2 ^ 32) × (Sound pkg.old → Placed pkg.old pkg.new k result) }
{
    let e = get4(pkg, END_AT);
    if e + k <= heap_size(pkg) {
        return e;
    }
    if e == get4(pkg, USED_AT) {
        return e;
    }
    compact(pkg);
    get4(pkg, END_AT)
}
