// The whole item of a row, split into the pieces of its part.
ghost use Rattle.std.specs.Prelude.{◌≡◌, ◌*◌, ◌^◌, ◌≤◌, ◌<◌, length};
ghost use Rattle.model.specs.Cutting.{piece_size, suffix_sum};
ghost use Rattle.pieces.specs.Suffixes.{suffix_text, tag_of_piece};
ghost use Rattle.pieces.specs.Rowed.{Renamed};
ghost use Rattle.pieces.specs.Cuts.{Divided};

use crate::rows::{rename, split_off};
use crate::suffixes::{SUFFIX_SIZE, piece_tag, put_suffix, suffix_length};

// How many bytes piece k has: the first `rest` pieces hold one more than the others.
fn piece_size(q: usize, rest: usize, k: usize) -> usize
    requires { q < 2 ^ 32 }
    ensures { result ≡ piece_size q rest k }
{
    if k < rest {
        return q + 1;
    }
    q
}

// How many bytes the suffixes of n pieces have together.
pub(crate) fn suffixes_length(n: usize) -> usize
    requires { n ≤ 256 }
    ensures { (result ≡ suffix_sum n n) × (result ≤ 17 * n) }
{
    let mut sum = 0;
    for k in 0..n {
        sum += suffix_length(k, k + 1 == n);
    }
    sum
}

// Row r becomes piece 0.
fn name_first(pkg: &mut [u8], r: usize, last: bool)
    ensures { Renamed pkg.old pkg.new r (tag_of_piece 0 last) (suffix_text 0 last) }
{
    let mut text = [0; SUFFIX_SIZE];
    let s = put_suffix(&mut text, 0, last);
    rename(pkg, r, piece_tag(0, last), &text[..s]);
}

// Makes n pieces with the prefix p of row r, from the last to the first: the row keeps the beginning of its bytes, and is piece 0 in the end.
pub(crate) fn split(pkg: &mut [u8], r: usize, p: &[u8], n: usize, q: usize, rest: usize)
    requires { (0 < n) × (n ≤ 256) × (0 < length p.now) × (length p.now < 2 ^ 16) × (q < 2 ^ 32) }
    ensures { Divided pkg.old pkg.new r p.now n q rest }
{
    for k in (1..n).rev() {
        split_off(pkg, r, p, k, k + 1 == n, piece_size(q, rest, k));
    }
    name_first(pkg, r, n == 1);
}
