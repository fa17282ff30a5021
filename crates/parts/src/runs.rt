// The rows of a group, and whether it is a part.
ghost use Rattle.std.specs.Prelude.{◌+◌, ◌≤◌, ◌<◌};
ghost use Rattle.chars.specs.FoldedNames.{HoldsFolding};
ghost use Rattle.store.specs.Layout.{slot_count};
ghost use Rattle.store.specs.Rows.{row_at, field_of};
ghost use Rattle.store.specs.Packages.{Shape};
ghost use Rattle.parts.specs.Runs.{Ended, EndedBehind, Judged, Grouped, PartOf};

use chars::folded::{FOLDED_SIZE, fold_into, folded_text, folds_to};
use contract::ITEMS;
use contract::search::{SearchKey, item_count, seek};
use store::rows::{field, tag};

// Rows that stand side by side: from the first up to, not including, the row `to`.
#[derive(Drop)]
pub struct Run {
    pub from: usize,
    pub to: usize,
}

// A tag whose number no item has: it is greater.
const PAST_TAG: usize = 65534;

// Where the items of the group p end, if the row before row e is one of them, by halving.
fn end_behind(pkg: &[u8], e: usize, n: usize, f: &[u8; 256], p: &[u8]) -> usize
    requires shape { Shape pkg.now × (e ≤ n) }
    requires holds_folding { HoldsFolding f.now p.now }
    ensures { EndedBehind pkg.now e n p.now result }
{
    let w = SearchKey {
        set: ITEMS,
        at: 0,
        length: p.len(),
        tag: PAST_TAG,
    };
    let place = seek(pkg, w, f, b"");
    let r = place.row;
    if r <= e {
        return e;
    }
    if n <= r {
        return n;
    }
    r
}

// Where the items of the group p that stand side by side from row i on end, before row n. Most groups have one item, or few.
// No `for`: where the rows end is the answer, also where none is looked at.
fn group_end(pkg: &[u8], i: usize, n: usize, f: &[u8; 256], p: &[u8]) -> usize
    requires shape { Shape pkg.now }
    requires holds_folding { HoldsFolding f.now p.now }
    ensures { Ended pkg.now i n p.now result }
{
    let w = folded_text(f, 0, p.len());
    let mut e = i;
    while e < n {
        if !folds_to(field(pkg, e, 0), w) {
            return e;
        }
        e += 1;
        if e - i == 4 {
            return end_behind(pkg, e, n, f, p);
        }
    }
    e
}

// Where the group of row i ends, before row n. A whole item is alone in its group. No item has a longer prefix than 255 bytes; a foreign buffer may, and
// such a row is compared with no other.
pub fn own_end(pkg: &[u8], i: usize, n: usize) -> usize
    requires { Shape pkg.now × (i < n) }
    ensures { Ended pkg.now (i + 1) n (field_of (row_at pkg.now i) 0) result }
{
    if tag(pkg, i) == 0 {
        return i + 1;
    }
    let p = field(pkg, i, 0);
    if 255 < p.len() {
        return i + 1;
    }
    let mut f = [0; 256];
    fold_into(&mut f, p);
    group_end(pkg, i + 1, n, &f, p)
}

// Whether the rows of a group are a part. They stand by number, and a last mark stands above all other numbers: the last row tells.
pub fn makes_part(pkg: &[u8], from: usize, to: usize) -> bool
    requires { to ≤ slot_count }
    ensures { Judged pkg.now from to result }
{
    if to <= from {
        return false;
    }
    let t = tag(pkg, to - 1);
    (t == 0) | (t == 2 * (to - from) + 1)
}

// The rows of the group p. A whole item, which has the number 0, is alone in it.
pub fn find_group(pkg: &[u8], f: &[u8; 256], p: &[u8]) -> Run
    requires shape { Shape pkg.now }
    requires holds_folding { HoldsFolding f.now p.now }
    ensures { Grouped pkg.now p.now result.from result.to }
{
    let w = SearchKey {
        set: ITEMS,
        at: 0,
        length: p.len(),
        tag: 0,
    };
    let place = seek(pkg, w, f, b"");
    let from = place.row;
    if place.held {
        return Run { from, to: from + 1 };
    }
    let n = item_count(pkg);
    let to = group_end(pkg, from, n, f, p);
    Run { from, to }
}

// Whether the items with the prefix p are a part.
pub fn is_part(pkg: &[u8], f: &[u8; 256], p: &[u8]) -> bool
    requires shape { Shape pkg.now }
    requires holds_folding { HoldsFolding f.now p.now }
    ensures { PartOf pkg.now p.now result }
{
    let group = find_group(pkg, f, p);
    let from = group.from;
    let to = group.to;
    makes_part(pkg, from, to)
}

// The same of any bytes: no part has a name that the array does not take.
pub fn is_any_part(pkg: &[u8], p: &[u8]) -> bool
    requires { Shape pkg.now }
    ensures { PartOf pkg.now p.now result }
{
    if FOLDED_SIZE < p.len() {
        return false;
    }
    let mut f = [0; 256];
    fold_into(&mut f, p);
    is_part(pkg, &f, p)
}
