// The heap's rows gathered run by run: rows that lie one behind the other are moved together.
ghost use Rattle.std.specs.Prelude.{◌≡◌, ◌+◌, ◌^◌, ◌≤◌, ◌<◌, length};
ghost use Rattle.store.specs.Layout.{heap_start, count_of, end_of};
ghost use Rattle.store.specs.Packages.{Shape, Sound, Gathered};
ghost use Rattle.store.specs.Places.{ByOffset, Carried};

use crate::bytes::put4;
use crate::slots::{offset, size};
use crate::{END_AT, HEADER_SIZE, HEAP_START, SLOT_SIZE};
use base::moves::shift;

// Moves the run of q bytes at a down to end at c, unless the bytes at o go on with it. Answers how many of its bytes still are to be moved.
fn carry(pkg: &mut [u8], a: usize, q: usize, c: usize, o: usize) -> usize
    requires { (q ≤ c) × (c ≤ a + q) × (a + q + heap_start ≤ length pkg.old) }
    ensures { Carried pkg.old pkg.new a q c o result }
{
    if o == a + q {
        return q;
    }
    shift(pkg, HEAP_START + a, HEAP_START + (c - q), q);
    0
}

// Gathers the rows at the heap's start, in the order t. Each slot tells at once where its row will lie; c is how far they reach,
// and the run of q bytes at a is still to be moved. In a sound package every row lies behind the run and before the end e.
pub(crate) fn gather_runs(pkg: &mut [u8], t: &[u16], e: usize)
    requires shape { Shape pkg.old × (e ≡ end_of pkg.old) × (e < 2 ^ 32) }
    requires order { (length t.now ≡ count_of pkg.old) × ByOffset pkg.old t.now (length t.now) (length t.now) }
    ensures { Sound pkg.old → Gathered pkg.old pkg.new }
{
    let mut c = 0;
    let mut a = 0;
    let mut q = 0;
    for &x in t {
        let r = x as usize;
        let o = offset(pkg, r);
        let k = size(pkg, r);
        if o < a + q {
            return;
        }
        if e < o + k {
            return;
        }
        let left = carry(pkg, a, q, c, o);
        put4(pkg, HEADER_SIZE + SLOT_SIZE * r, c);
        a = o - left;
        q = left + k;
        c += k;
    }
    shift(pkg, HEAP_START + a, HEAP_START + (c - q), q);
    put4(pkg, END_AT, c);
}
