// Whether a new item may stand beside the held ones: refusals 12 and 11.
ghost use Rattle.std.specs.Prelude.{◌≡◌, ◌≤◌, ◌<◌, [], length, take};
ghost use Rattle.chars.specs.Folding.{fold};
ghost use Rattle.chars.specs.FoldedNames.{HoldsFolding};
ghost use Rattle.model.specs.Fields.{prefix_of, suffix_of};
ghost use Rattle.output.specs.Refusals.{number_of};
ghost use Rattle.model.specs.Package.{grows};
ghost use Rattle.store.specs.Layout.{count_of};
ghost use Rattle.contract.specs.Rows.{tag_of, key_in};
ghost use Rattle.contract.specs.Searches.{Bounded, Counted};
ghost use Rattle.items.specs.Clashes.{tags_disagree, Grown, Parted, extends, Extended, Opposed, OpposedBefore, Misfitting};

use base::bytes::byte_at;
use chars::folded::{folded_text, folds_to, shared_start};
use output::refusals::Refusal;
use store::rows::{field, tag};

// The suffixes of two items of one group disagree, by their tags.
fn tags_disagree(t: usize, u: usize) -> bool
    ensures { result ≡ tags_disagree t u }
{
    ((t == 0) & (u != 0))
        | ((t != 0) & (u == 0))
        | ((t % 2 == 1) & (u % 2 == 1))
        | ((u % 2 == 1) & (u / 2 < t / 2))
        | ((t % 2 == 1) & (t / 2 < u / 2))
}

// One of the two is derivable from the other. w is folded.
fn is_grown(w: &[u8], q: &[u8]) -> bool
    requires { fold w.now ≡ w.now }
    ensures { result ≡ grows w.now q.now }
{
    let n = w.len();
    let m = q.len();
    if m + 1 < n {
        if byte_at(w, m) == b'/' {
            return shared_start(q, w, 0) == m;
        }
        return false;
    }
    if n + 1 < m {
        if byte_at(q, n) == b'/' {
            return shared_start(q, w, 0) == n;
        }
    }
    false
}

// Whether the prefix of one of the first n rows is derivable from p, or p from it.
fn has_grown(pkg: &[u8], n: usize, f: &[u8; 256], p: &[u8]) -> bool
    requires { (n ≤ count_of pkg.now) × HoldsFolding f.now p.now }
    ensures { Grown pkg.now n p.now result }
{
    let w = folded_text(f, 0, p.len());
    for i in 0..n {
        if is_grown(w, field(pkg, i, 0)) {
            return true;
        }
    }
    false
}

// The prefix of the row before row r and p part where p has a slash.
fn is_parted(pkg: &[u8], r: usize, f: &[u8; 256], p: &[u8]) -> bool
    requires { HoldsFolding f.now p.now }
    ensures { Parted pkg.now r p.now result }
{
    if r == 0 {
        return false;
    }
    let w = folded_text(f, 0, p.len());
    byte_at(p, shared_start(field(pkg, r - 1, 0), w, 0)) == b'/'
}

// q is w and more. w is folded.
fn is_longer(q: &[u8], w: &[u8]) -> bool
    requires { fold w.now ≡ w.now }
    ensures { result ≡ extends q.now w.now }
{
    let n = w.len();
    if n < q.len() {
        return shared_start(q, w, 0) == n;
    }
    false
}

// Row i is one of the m items, and its prefix is p and more.
fn is_extended(pkg: &[u8], i: usize, m: usize, f: &[u8; 256], p: &[u8]) -> bool
    requires { HoldsFolding f.now p.now }
    ensures { Extended pkg.now i m p.now result }
{
    if m <= i {
        return false;
    }
    let w = folded_text(f, 0, p.len());
    is_longer(field(pkg, i, 0), w)
}

// Row i is one of the m items, of a new one's group, and its suffix disagrees with the new one's.
fn is_opposed(pkg: &[u8], i: usize, m: usize, f: &[u8; 256], p: &[u8], t: usize) -> bool
    requires { HoldsFolding f.now p.now }
    ensures { Opposed pkg.now i m p.now t result }
{
    if m <= i {
        return false;
    }
    if !tags_disagree(t, tag(pkg, i)) {
        return false;
    }
    let w = folded_text(f, 0, p.len());
    folds_to(field(pkg, i, 0), w)
}

// The same of the row before row r.
fn is_opposed_before(pkg: &[u8], r: usize, m: usize, f: &[u8; 256], p: &[u8], t: usize) -> bool
    requires { HoldsFolding f.now p.now }
    ensures { OpposedBefore pkg.now r m p.now t result }
{
    if r == 0 {
        return false;
    }
    is_opposed(pkg, r - 1, m, f, p, t)
}

// Judges a new item whose key is not taken and that would be row r of m items: only the rows beside r can disagree with it (12), and
// mostly they show that no prefix is derivable from its prefix, or that from one (11).
pub(crate) fn check_fit(
    pkg: &[u8],
    f: &[u8; 256],
    s: &[u8],
    n: usize,
    t: usize,
    r: usize,
    m: usize,
) -> Result<(), Refusal>
    requires n_value { (n ≡ length (prefix_of s.now)) × (t ≡ tag_of (suffix_of s.now)) }
    requires holds_folding { HoldsFolding f.now (take n s.now) }
    requires bounded { Bounded pkg.now (key_in 0 (take n s.now) t []) r }
    requires counted { Counted pkg.now m }
    ensures { Misfitting pkg.now s.now (number_of result) }
{
    if is_opposed(pkg, r, m, f, &s[..n], t) {
        return Err(Refusal::PiecesDisagree);
    }
    if is_opposed_before(pkg, r, m, f, &s[..n], t) {
        return Err(Refusal::PiecesDisagree);
    }
    if is_parted(pkg, r, f, &s[..n]) | is_extended(pkg, r, m, f, &s[..n]) {
        if has_grown(pkg, m, f, &s[..n]) {
            return Err(Refusal::Derivable);
        }
    }
    Ok(())
}
