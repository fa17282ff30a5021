// Rows split, joined and renamed, on any bytes: a buffer in which a row is not there, or has no room, is left as it is.
ghost use Rattle.std.specs.Prelude.{◌+◌, ◌^◌, ◌<◌, length};
ghost use Rattle.pieces.specs.Suffixes.{suffix_text, tag_of_piece};
ghost use Rattle.pieces.specs.Rowed.{There, Behind, SplitOff, Absorbed, Renamed};

use crate::suffixes::{SUFFIX_SIZE, piece_tag, put_suffix};
use store::SLOT_COUNT;
use store::changes::{pass, respell};
use store::header::{count, free, is_package};
use store::rows::{field, insert, remove};

// Whether row r is there.
fn is_there(pkg: &[u8], r: usize) -> bool
    ensures { There pkg.now r result }
{
    if is_package(pkg) {
        return r < count(pkg);
    }
    false
}

// Whether row r is there, and a row of k bytes may be put in behind it.
fn may_follow(pkg: &[u8], r: usize, k: usize) -> bool
    ensures { Behind pkg.now r k result }
{
    if !is_there(pkg, r) {
        return false;
    }
    if SLOT_COUNT <= count(pkg) {
        return false;
    }
    k <= free(pkg)
}

// Splits the last n bytes of row r off: they go into the row of piece k behind it.
pub(crate) fn split_off(pkg: &mut [u8], r: usize, p: &[u8], k: usize, last: bool, n: usize)
    requires { (k < 1000) × (length p.now < 2 ^ 16) × (0 < length p.now) }
    ensures { SplitOff pkg.old pkg.new r (tag_of_piece k last) p.now (suffix_text k last) n }
{
    let mut text = [0; SUFFIX_SIZE];
    let s = put_suffix(&mut text, k, last);
    if !may_follow(pkg, r, p.len() + s) {
        return;
    }
    insert(pkg, r + 1, piece_tag(k, last), p, &text[..s], b"", b"");
    if !is_there(pkg, r + 1) {
        return;
    }
    pass(pkg, r, r + 1, n);
}

// Row r takes up the bytes of the row behind it, which goes.
pub(crate) fn absorb(pkg: &mut [u8], r: usize)
    requires { r < 2 ^ 16 }
    ensures { Absorbed pkg.old pkg.new r }
{
    if !is_there(pkg, r + 1) {
        return;
    }
    let n = field(pkg, r + 1, 2).len();
    pass(pkg, r + 1, r, n);
    if !is_there(pkg, r + 1) {
        return;
    }
    remove(pkg, r + 1);
}

// Names row r anew.
pub(crate) fn rename(pkg: &mut [u8], r: usize, t: usize, s: &[u8])
    requires { (t < 2 ^ 32) × (length s.now < 2 ^ 16) }
    ensures { Renamed pkg.old pkg.new r t s.now }
{
    if is_there(pkg, r) {
        respell(pkg, r, t, s);
    }
}
