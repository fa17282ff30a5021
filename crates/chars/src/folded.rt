// A wanted name, folded once, and held names compared with it.
ghost use Rattle.std.specs.Prelude.{◌≡◌, ◌+◌, ◌≤◌, length};
ghost use Rattle.base.specs.Buffer.{part};
ghost use Rattle.chars.specs.Lists.{same};
ghost use Rattle.chars.specs.Folding.{fold};
ghost use Rattle.chars.specs.FoldedNames.{folded_size, HoldsFolding, SharedSome, SharedUpTo, Shared, OrderPast, Compared};

use crate::cases::{AsIs, Case, Folded};
use crate::letters::to_lower;
use crate::starts::agree;
use std::cmp::Ordering;

// How many bytes the array has that a wanted name is folded into.
pub const FOLDED_SIZE: usize = 256;

// Folds a name into an array, from its first byte on.
pub fn fold_into(f: &mut [u8], s: &[u8])
    requires { (length s.now ≤ folded_size) × (length f.old ≡ folded_size) }
    ensures { HoldsFolding f.new s.now }
{
    for i in 0..s.len() {
        f[i] = to_lower(s[i]);
    }
}

// The n bytes of the array from `at` on.
pub fn folded_text(f: &[u8; FOLDED_SIZE], at: usize, n: usize) -> &[u8]
    requires { at + n ≤ folded_size }
    ensures { result.now ≡ part at n f.now }
{
    &f[at..at + n]
}

// So many bytes of a at least, folded, are those of q at its beginning, if the first `from` are: eight at a time, as they stand or as they are read.
fn shared_eights<C: Case>(a: &[u8], q: &[u8], from: usize) -> usize
    requires { fold q.now ≡ q.now }
    ensures { SharedSome a.now q.now from result }
{
    let n = a.len().min(q.len());
    if n < from {
        return n;
    }
    let m = (n - from) / 8;
    for k in 0..m {
        let i = from + 8 * k;
        if !agree::<C, AsIs>(a, q, i) {
            return i;
        }
    }
    from + 8 * m
}

// The same, up to the first byte that is not the same as it is read.
fn shared_bytes<C: Case>(a: &[u8], q: &[u8], from: usize) -> usize
    requires { fold q.now ≡ q.now }
    ensures { SharedUpTo C.read a.now q.now from result }
{
    let n = a.len().min(q.len());
    for i in shared_eights::<C>(a, q, from)..n {
        if C::read(a[i]) != q[i] {
            return i;
        }
    }
    n
}

// How many bytes of a, folded, are those of q at its beginning, if the first `from` are.
pub fn shared_start(a: &[u8], q: &[u8], from: usize) -> usize
    requires { fold q.now ≡ q.now }
    ensures { Shared a.now q.now from result }
{
    shared_bytes::<Folded>(a, q, from)
}

// How a, folded, stands to q, where c bytes at their beginning are the same, and no more.
fn order_past(a: &[u8], q: &[u8], c: usize) -> Ordering
    ensures { OrderPast a.now q.now c result }
{
    if c < a.len() && c < q.len() {
        return to_lower(a[c]).cmp(&q[c]);
    }
    a.len().cmp(&q.len())
}

// How a held name stands to a wanted one, and how many bytes at their beginning are the same.
#[derive(Drop)]
pub struct Comparison {
    pub order: Ordering,
    pub common: usize,
}

// How a, folded, stands to q, if the first `from` bytes are the same.
fn compare_on(a: &[u8], q: &[u8], from: usize) -> Comparison
    requires { fold q.now ≡ q.now }
    ensures { Compared a.now q.now from result.order result.common }
{
    let common = shared_start(a, q, from);
    Comparison {
        order: order_past(a, q, common),
        common,
    }
}

// What compare_on tells, sooner where a has no capitals.
pub fn compare_past(a: &[u8], q: &[u8], from: usize) -> Comparison
    requires { fold q.now ≡ q.now }
    ensures { Compared a.now q.now from result.order result.common }
{
    let c = shared_bytes::<AsIs>(a, q, from);
    if c < a.len() && c < q.len() && to_lower(a[c]) == q[c] {
        return compare_on(a, q, c);
    }
    Comparison {
        order: order_past(a, q, c),
        common: c,
    }
}

// Whether a, folded, is q.
pub fn folds_to(a: &[u8], q: &[u8]) -> bool
    requires { fold q.now ≡ q.now }
    ensures { result ≡ same (fold a.now) q.now }
{
    a.len() == q.len() && shared_start(a, q, 0) == q.len()
}
