// Folding, and what is compared by it.
ghost use Rattle.std.specs.Prelude.{◌≡◌, map};
ghost use Rattle.std.specs.Ordering.{nat_cmp};
ghost use Rattle.chars.specs.Folding.{equivalent, derivable, order, folded_order, ends_in};

use crate::cases::{AsIs, Case, Folded};
use crate::letters::is_same_letter;
use crate::starts::same_start;
use base::bytes::byte_at;
use std::cmp::Ordering;

// The library's `eq_ignore_ascii_case` of slices takes two to nine times as long at 24 bytes.
pub fn is_equivalent(a: &[u8], b: &[u8]) -> bool
    ensures { result ≡ equivalent a.now b.now }
{
    if a.len() != b.len() {
        return false;
    }
    for i in same_start::<Folded>(a, b)..a.len() {
        if !is_same_letter(a[i], b[i]) {
            return false;
        }
    }
    true
}

// a from b.
pub fn is_derivable(a: &[u8], b: &[u8]) -> bool
    ensures { result ≡ derivable a.now b.now }
{
    let n = b.len();
    if n + 1 < a.len() {
        if byte_at(a, n) == b'/' {
            return is_equivalent(&a[..n], b);
        }
    }
    false
}

// Two bytes. Most that are compared are the same.
fn byte_order<C: Case>(p: u8, q: u8) -> Ordering
    ensures { result ≡ nat_cmp (C.read p) (C.read q) }
{
    if p == q {
        return Ordering::Equal;
    }
    C::read(p).cmp(&C::read(q))
}

// Byte by byte, as they are read; a proper prefix comes first. The library's `cmp` of slices takes 1.7 times as long at 24 bytes.
fn compare_by<C: Case>(a: &[u8], b: &[u8]) -> Ordering
    ensures { result ≡ order (map C.read a.now) (map C.read b.now) }
{
    for i in same_start::<C>(a, b)..a.len().min(b.len()) {
        let o = byte_order::<C>(a[i], b[i]);
        if o.is_ne() {
            return o;
        }
    }
    a.len().cmp(&b.len())
}

pub fn compare(a: &[u8], b: &[u8]) -> Ordering
    ensures { result ≡ order a.now b.now }
{
    compare_by::<AsIs>(a, b)
}

pub fn compare_folded(a: &[u8], b: &[u8]) -> Ordering
    ensures { result ≡ folded_order a.now b.now }
{
    compare_by::<Folded>(a, b)
}

pub fn ends_in(s: &[u8], e: &[u8]) -> bool
    ensures { result ≡ ends_in e.now s.now }
{
    let n = e.len();
    if n <= s.len() {
        let from = s.len() - n;
        return is_equivalent(&s[from..], e);
    }
    false
}
