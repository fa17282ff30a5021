// The same bytes at the beginning of two texts, eight at a time: names of a package mostly begin alike.
ghost use Rattle.std.specs.Prelude.{◌≡◌, ◌||◌, map, ◌+◌, ◌≤◌, length, take};
ghost use Rattle.chars.specs.Comparing.{as_is, same_eight};

use crate::cases::{AsIs, Case};

// No byte is tested by itself: `==` and `eq_ignore_ascii_case` on slices of eight bytes take three to eight times as long on texts of 24 bytes and more.
fn is_same_eight<P: Case, Q: Case>(a: &[u8], b: &[u8], i: usize) -> bool
    requires { (i + 8 ≤ length a.now) × (i + 8 ≤ length b.now) }
    ensures { result ≡ same_eight P.read Q.read a.now b.now i }
{
    let mut same = true;
    for k in 0..8 {
        same &= P::read(a[i + k]) == Q::read(b[i + k]);
    }
    same
}

// Eight bytes are the same as they stand, as mostly, or as they are read.
pub(crate) fn agree<P: Case, Q: Case>(a: &[u8], b: &[u8], i: usize) -> bool
    requires { (i + 8 ≤ length a.now) × (i + 8 ≤ length b.now) }
    ensures { result ≡ same_eight as_is as_is a.now b.now i || same_eight P.read Q.read a.now b.now i }
{
    is_same_eight::<AsIs, AsIs>(a, b, i) || is_same_eight::<P, Q>(a, b, i)
}

// So many bytes at least, at the beginning, are the same in both, as they are read.
pub fn same_start<C: Case>(a: &[u8], b: &[u8]) -> usize
    ensures { (result ≤ length a.now) × (result ≤ length b.now) × (map C.read (take result a.now) ≡ map C.read (take result b.now)) }
{
    let n = a.len().min(b.len()) / 8;
    for k in 0..n {
        if !agree::<C, C>(a, b, 8 * k) {
            return 8 * k;
        }
    }
    8 * n
}
