// The heap's end: bytes sent there, past all others. Where it has no room they change places with what lies behind them.
ghost use Rattle.std.specs.Prelude.{◌≡◌, cond, ◌+◌, ◌-◌, ◌^◌, ◌≤◌, ◌<◌, leb, length};
ghost use Rattle.store.specs.Layout.{slot_count, heap_start, count_of, end_of};
ghost use Rattle.store.specs.Packages.{Shape};
ghost use Rattle.store.specs.Places.{Lowered, Sent, RowSent, Brought};

use crate::bytes::{get4, put4};
use crate::heap::{free_place, heap_size};
use crate::slots::{offset, size};
use crate::{COUNT_AT, END_AT, HEADER_SIZE, HEAP_START, SLOT_SIZE, USED_AT};
use base::moves::{shift, turn};

// The offset o, k lower if it is c or above.
fn lowered(o: usize, c: usize, k: usize) -> usize
    requires { k ≤ c }
    ensures { (result ≡ cond (leb c o) (o - k) o) × (result ≤ o) }
{
    if c <= o {
        return o - k;
    }
    o
}

// Lowers by k the offsets at c or above of the first n rows.
fn lower_above(pkg: &mut [u8], n: usize, c: usize, k: usize)
    requires { (n ≤ slot_count) × (heap_start ≤ length pkg.old) × (k ≤ c) }
    ensures { Lowered pkg.old pkg.new n c k }
{
    for i in 0..n {
        let o = offset(pkg, i);
        put4(pkg, HEADER_SIZE + SLOT_SIZE * i, lowered(o, c, k));
    }
}

// Sends the k bytes at x to the end e of the heap: a copy, where there is room for them and `more` bytes. Answers how much lower lies what lay behind them.
pub(crate) fn send(pkg: &mut [u8], n: usize, e: usize, x: usize, k: usize, more: usize) -> usize
    requires { (n ≤ slot_count) × (x + k ≤ e) × (e ≡ end_of pkg.old) × (e + heap_start ≤ length pkg.old) × (e < 2 ^ 32) × (more < 2 ^ 32) }
    ensures { Sent pkg.old pkg.new n e x k more result }
{
    if e + k + more <= heap_size(pkg) {
        shift(pkg, HEAP_START + x, HEAP_START + e, k);
        put4(pkg, END_AT, e + k);
        return 0;
    }
    turn(pkg, HEAP_START + x, e - x, k);
    lower_above(pkg, n, x + k, k);
    k
}

// Sends the s bytes of row r, one of n, to the heap's end. In a sound package they lie before it, and where there is no room there is no gap.
fn send_row(pkg: &mut [u8], n: usize, r: usize, s: usize, k: usize)
    requires { (n ≤ slot_count) × (r < slot_count) × (heap_start ≤ length pkg.old) × (s < 2 ^ 34) × (k < 2 ^ 31) }
    ensures { RowSent pkg.old pkg.new n r s k }
{
    let e = get4(pkg, END_AT);
    let o = offset(pkg, r);
    if heap_size(pkg) < e {
        return;
    }
    if e < o + s {
        return;
    }
    if (heap_size(pkg) < e + s + k) & (e != get4(pkg, USED_AT)) {
        return;
    }
    let d = send(pkg, n, e, o, s, k);
    put4(pkg, HEADER_SIZE + SLOT_SIZE * r, e - d);
}

// Brings the bytes of row r behind those of all others. Then k bytes more fit behind them, or no row leaves a gap.
pub(crate) fn bring_last(pkg: &mut [u8], r: usize, k: usize)
    requires { Shape pkg.old × (r < count_of pkg.old) × (k < 2 ^ 31) }
    ensures { Brought pkg.old pkg.new r k }
{
    let n = get4(pkg, COUNT_AT);
    let e = get4(pkg, END_AT);
    let s = size(pkg, r);
    if (offset(pkg, r) + s == e) & (e + k <= heap_size(pkg)) {
        return;
    }
    if get4(pkg, USED_AT) < s {
        return;
    }
    free_place(pkg, s + k);
    send_row(pkg, n, r, s, k);
}
