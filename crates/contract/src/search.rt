// Searching the rows of a package: they stand in the order of their keys.
ghost use Rattle.std.specs.Prelude.{◌≡◌, ◌/◌, ◌≤◌, ◌<◌, [], ◌∷◌};
ghost use Rattle.chars.specs.Folding.{order};
ghost use Rattle.store.specs.Layout.{slot_count, count_of};
ghost use Rattle.store.specs.Packages.{Shape};
ghost use Rattle.contract.specs.Rows.{set_of, second, key_in};
ghost use Rattle.contract.specs.Searches.{sought_key, Aimed, Stands, Bounded, Placed, Counted};

use crate::{DEFAULT_TAG, DEFAULTS, ITEMS, OVERRIDE_TAG, OVERRIDES, RELATIONSHIPS};
use base::numbers::smaller;
use chars::folded::{Comparison, compare_past, folded_text};
use chars::folding::compare;
use std::cmp::Ordering;
use store::header::count;
use store::rows::{field, head, tag};

// The set that a row's tag tells.
pub fn set_of(t: usize) -> usize
    ensures { result ≡ set_of t }
{
    if t < DEFAULT_TAG {
        return ITEMS;
    }
    if t == DEFAULT_TAG {
        return DEFAULTS;
    }
    if t == OVERRIDE_TAG {
        return OVERRIDES;
    }
    RELATIONSHIPS
}

fn compare_numbers(x: usize, y: usize) -> Ordering
    ensures { result ≡ order (x ∷ []) (y ∷ []) }
{
    if x < y {
        return Ordering::Less;
    }
    if y < x {
        return Ordering::Greater;
    }
    Ordering::Equal
}

// Where the first texts of two keys of a set are equal: the numbers of items, the ids of relationships.
fn compare_second(set: usize, u: usize, other: &[u8], t: usize, id: &[u8]) -> Ordering
    ensures { result ≡ order (second set u other.now) (second set t id.now) }
{
    if set == ITEMS {
        return compare_numbers(u / 2, t / 2);
    }
    if set == RELATIONSHIPS {
        return compare(other, id);
    }
    Ordering::Equal
}

// What is sought: an entry of the set, with the text of `length` bytes from `at` on in an array of foldings; of an item also the tag, which tells its
// number. The id of a relationship goes beside it, as the array does.
#[derive(Clone, Copy)]
pub struct SearchKey {
    pub set: usize,
    pub at: usize,
    pub length: usize,
    pub tag: usize,
}

// A place among the rows: that of the key, or where it would stand.
#[derive(Clone, Copy)]
pub struct Place {
    pub row: usize,
    pub held: bool,
}

// How row i stands to what is sought, and how many bytes at the beginning of its text it has in common with it, if they are not fewer than `from`. None in
// another set, and none where a foreign buffer ends before the row does.
fn stands(pkg: &[u8], i: usize, w: SearchKey, f: &[u8; 256], id: &[u8], from: usize) -> Comparison
    requires shape { Shape pkg.now × (i < count_of pkg.now) }
    requires aimed { Aimed w f.now }
    ensures { Stands pkg.now i (sought_key w f.now id.now) from result.order result.common }
{
    let row = head(pkg, i);
    let u = row.tag;
    let own = set_of(u);
    let set = w.set;
    if own < set {
        return Comparison {
            order: Ordering::Less,
            common: 0,
        };
    }
    if set < own {
        return Comparison {
            order: Ordering::Greater,
            common: 0,
        };
    }
    let a = row.at;
    let e = a + row.length;
    if pkg.len() < e {
        return Comparison {
            order: Ordering::Less,
            common: 0,
        };
    }
    let text = folded_text(f, w.at, w.length);
    let at = compare_past(&pkg[a..e], text, from);
    let order = at.order;
    match order {
        Ordering::Less => at,
        Ordering::Equal => Comparison {
            order: compare_second(set, u, field(pkg, i, 1), w.tag, id),
            common: at.common,
        },
        Ordering::Greater => at,
    }
}

// The first row of a set or of a later one, by halving: the tags tell. By hand, here and below: the library searches slices, and rows are read out of
// the buffer by their numbers.
pub fn set_start(pkg: &[u8], set: usize) -> usize
    requires { count_of pkg.now ≤ slot_count }
    ensures { Bounded pkg.now (key_in set [] 0 []) result }
{
    let mut lo = 0;
    let mut hi = count(pkg);
    while lo < hi {
        let mid = lo + (hi - lo) / 2;
        if set_of(tag(pkg, mid)) < set {
            lo = mid + 1;
        } else {
            hi = mid;
        }
    }
    lo
}

// How many items there are: theirs are the rows before the next set.
pub fn item_count(pkg: &[u8]) -> usize
    requires { Shape pkg.now }
    ensures { Counted pkg.now result }
{
    set_start(pkg, DEFAULTS)
}

// The first row whose key is not before what is sought, by halving: no two rows have one key, so a row that has it ends the search. What the rows on
// both sides have in common with it, all rows between them have.
pub fn seek(pkg: &[u8], w: SearchKey, f: &[u8; 256], id: &[u8]) -> Place
    requires shape { Shape pkg.now }
    requires aimed { Aimed w f.now }
    ensures { Placed pkg.now (sought_key w f.now id.now) result.row result.held }
{
    let mut lo = 0;
    let mut hi = count(pkg);
    let mut below = 0;
    let mut above = 0;
    while lo < hi {
        let mid = lo + (hi - lo) / 2;
        let at = stands(pkg, mid, w, f, id, smaller(below, above));
        let common = at.common;
        let order = at.order;
        match order {
            Ordering::Less => {
                lo = mid + 1;
                below = common;
            }
            Ordering::Equal => {
                return Place {
                    row: mid,
                    held: true,
                };
            }
            Ordering::Greater => {
                hi = mid;
                above = common;
            }
        }
    }
    Place {
        row: lo,
        held: false,
    }
}
