// The item that a name asks for, and its row. `&s[..]` for `s`: docs/DECISIONS.md, Slices handed on.
ghost use Rattle.std.specs.Prelude.{◌≡◌, ◌≤◌, ◌<◌, length};
ghost use Rattle.chars.specs.FoldedNames.{folded_size};
ghost use Rattle.model.specs.Fields.{asked_field, item_field, prefix_of, suffix_of};
ghost use Rattle.store.specs.Packages.{Shape};
ghost use Rattle.contract.specs.Rows.{tag_of, default_tag};
ghost use Rattle.items.specs.Wants.{wanted, Located};

use chars::folded::fold_into;
use contract::ITEMS;
use contract::search::{SearchKey, seek};
use names::items::{ItemName, Suffix, refusal, take_apart};
use names::parts::is_reserved;
use output::refusals::Refusal;
use store::header::count;
use store::rows::tag;

// The item that a name asks for: the length of its prefix, and the tag of its row.
#[derive(Clone, Copy)]
pub struct Wanted {
    pub prefix: usize,
    pub tag: usize,
}

// The tag of an item's row.
fn tag_of(x: Suffix) -> usize
    requires { tag_of x < default_tag }
    ensures { result ≡ tag_of x }
{
    match x {
        Suffix::Whole => 0,
        Suffix::Piece(k, l) => 2 * (k + 1) + usize::from(l),
    }
}

// A name as find and view take it.
pub(crate) fn asked(s: &[u8]) -> Result<Wanted, Refusal>
    ensures { wanted (asked_field s.now) s.now result }
{
    let split = take_apart(s);
    let ItemName::Named(n, x) = split else {
        return Err(refusal(split).unwrap());
    };
    Ok(Wanted {
        prefix: n,
        tag: tag_of(x),
    })
}

// A name as put and drop take it.
pub(crate) fn strict(s: &[u8]) -> Result<Wanted, Refusal>
    ensures { wanted (item_field s.now) s.now result }
{
    let split = take_apart(s);
    let ItemName::Named(n, x) = split else {
        return Err(refusal(split).unwrap());
    };
    if is_reserved(&s[..n]) {
        return Err(Refusal::Reserved);
    }
    Ok(Wanted {
        prefix: n,
        tag: tag_of(x),
    })
}

// The row of the item with the prefix and the tag of s, or the number of rows.
pub(crate) fn item_row(pkg: &[u8], s: &[u8], n: usize, t: usize) -> usize
    requires shape { Shape pkg.now × (n ≤ folded_size) }
    requires n_value { (n ≡ length (prefix_of s.now)) × (t ≡ tag_of (suffix_of s.now)) }
    ensures { Located pkg.now s.now result }
{
    let mut f = [0; 256];
    fold_into(&mut f, &s[..n]);
    let w = SearchKey {
        set: ITEMS,
        at: 0,
        length: n,
        tag: t,
    };
    let place = seek(&pkg[..], w, &f, b"");
    let m = count(pkg);
    let r = place.row;
    if !place.held {
        return m;
    }
    if tag(pkg, r) == t {
        return r;
    }
    m
}
