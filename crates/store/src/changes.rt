// Rows changed where they stand: bytes passed from one to another, a row spelled anew.
ghost use Rattle.std.specs.Prelude.{◌≡◌, ◌^◌, ◌≤◌, ◌<◌, length};
ghost use Rattle.store.specs.Layout.{slot_count, heap_start, max_capacity, count_of};
ghost use Rattle.store.specs.Rows.{row_at, rows_of, replace_at, respelled};
ghost use Rattle.store.specs.Packages.{Shape, Sound, Became, Passing, passed, Respelling};
ghost use Rattle.store.specs.Places.{PassedBack, RespelledBack};

use crate::bytes::{get4, put4};
use crate::ends::{bring_last, send};
use crate::header::put_counts;
use crate::heap::heap_size;
use crate::slots::{Slot, number, offset, put_slot, size};
use crate::{
    COUNT_AT, END_AT, HEADER_SIZE, HEAP_START, LENGTH0_AT, LENGTH1_AT, LENGTH2_AT, SLOT_SIZE,
    USED_AT,
};
use base::moves::{copy_in, shift};

// `pass`, where row i, one of so many rows that use u bytes, is the last in the heap. In a sound package row j lies before it, and no two rows
// have more than u bytes.
fn pass_back(pkg: &mut [u8], rows: usize, u: usize, j: usize, i: usize, n: usize)
    requires { (rows ≤ slot_count) × (u ≤ max_capacity) × (j < slot_count) × (i < slot_count) × (heap_start ≤ length pkg.old) }
    ensures { PassedBack pkg.old pkg.new rows u j i n }
{
    let from = number(pkg, j, LENGTH2_AT);
    let to = number(pkg, i, LENGTH2_AT);
    if from < n {
        return;
    }
    if u < to + from {
        return;
    }
    let e = get4(pkg, END_AT);
    let s = offset(pkg, j) + size(pkg, j);
    if e < s {
        return;
    }
    let h = heap_size(pkg);
    if h < e {
        return;
    }
    if (h < e + n) & (e != u) {
        return;
    }
    send(pkg, rows, e, s - n, n, 0);
    put4(pkg, HEADER_SIZE + SLOT_SIZE * j + LENGTH2_AT, from - n);
    put4(pkg, HEADER_SIZE + SLOT_SIZE * i + LENGTH2_AT, to + n);
}

// Passes the last n bytes of row j's field 2 on to the end of row i's.
pub fn pass(pkg: &mut [u8], j: usize, i: usize, n: usize)
    requires { Shape pkg.old × (j < count_of pkg.old) × (i < count_of pkg.old) }
    ensures { Sound pkg.old → Passing pkg.old j i n → Became pkg.old pkg.new (passed pkg.old j i n) }
{
    let rows = get4(pkg, COUNT_AT);
    let u = get4(pkg, USED_AT);
    if u < n {
        return;
    }
    bring_last(pkg, i, n);
    pass_back(pkg, rows, u, j, i, n);
}

// `respell`, where row r, one of n that use u bytes, is the last in the heap. Its last field has no bytes.
fn respell_back(pkg: &mut [u8], n: usize, u: usize, r: usize, t: usize, s: &[u8])
    requires { (n ≤ slot_count) × (u ≤ max_capacity) × (r < slot_count) × (heap_start ≤ length pkg.old) × (t < 2 ^ 32) × (length s.now < 2 ^ 16) }
    ensures { RespelledBack pkg.old pkg.new n u r t s.now }
{
    let o = offset(pkg, r);
    let a = number(pkg, r, LENGTH0_AT);
    let old = number(pkg, r, LENGTH1_AT);
    let c = number(pkg, r, LENGTH2_AT);
    let h = heap_size(pkg);
    if h < o + a + old + c {
        return;
    }
    if h < o + a + s.len() + c {
        return;
    }
    if u < old {
        return;
    }
    let used = u - old + s.len();
    let at = HEAP_START + o + a;
    shift(pkg, at + old, at + s.len(), c);
    copy_in(pkg, at, s);
    let slot = Slot {
        offset: o,
        length0: a,
        length1: s.len(),
        length2: c,
        length3: 0,
        tag: t,
    };
    put_slot(pkg, HEADER_SIZE + SLOT_SIZE * r, slot);
    put_counts(pkg, n, used, o + a + s.len() + c);
}

// Gives row r another tag and another field 1.
pub fn respell(pkg: &mut [u8], r: usize, t: usize, s: &[u8])
    requires { Shape pkg.old × (r < count_of pkg.old) × (t < 2 ^ 32) × (length s.now < 2 ^ 16) }
    ensures { Sound pkg.old → Respelling pkg.old r (length s.now) → Became pkg.old pkg.new (replace_at r (respelled (row_at pkg.old r) t s.now) (rows_of pkg.old)) }
{
    let n = get4(pkg, COUNT_AT);
    let u = get4(pkg, USED_AT);
    bring_last(pkg, r, s.len());
    respell_back(pkg, n, u, r, t, s);
}
