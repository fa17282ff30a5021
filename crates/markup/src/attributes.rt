// Attributes of a tag.
ghost use Rattle.std.specs.Prelude.{◌≡◌, cond, ◌-◌, ◌≤◌, length, drop};
ghost use Rattle.base.specs.Buffer.{part};
ghost use Rattle.markup.specs.Marks.{after_blanks, prefixed};
ghost use Rattle.markup.specs.Tags.{attribute_at, next_attribute as next_of, attributes_at, attribute_named, own};
ghost use Rattle.markup.specs.Walks.{Reached, ValueEnd, Spanned, Sought};

use crate::marks::{blanks_end, is_blank};
use crate::names::{is_prefixed, name_end};
use crate::values::{is_quotable, is_quote_mark};
use base::bytes::byte_at;
use chars::search::find;
use chars::texts::is_same;

// Where an attribute's name and the value between its quote marks stand, and where it ends.
#[derive(Clone, Copy)]
pub(crate) struct Span {
    pub name: usize,
    pub name_end: usize,
    pub from: usize,
    pub to: usize,
    pub next: usize,
}

// Where the value ends whose quote mark stands at q: where that mark stands again.
fn value_end(s: &[u8], q: usize) -> Option<usize>
    requires { q ≤ length s.now }
    ensures { ValueEnd s.now q result }
{
    let b = byte_at(s, q);
    if !is_quote_mark(b) {
        return None;
    }
    let from = q + 1;
    let to = find(s, from, b);
    if to < s.len() && is_quotable(&s[from..to]) {
        return Some(to);
    }
    None
}

// The attribute whose name begins at `at`.
fn attribute(s: &[u8], at: usize) -> Option<Span>
    requires { at ≤ length s.now }
    ensures { Spanned s.now at (attribute_at (drop at s.now)) result }
{
    let name_end = name_end(s, at);
    if name_end == at {
        return None;
    }
    let e = blanks_end(s, name_end);
    if byte_at(s, e) != b'=' {
        return None;
    }
    let q = blanks_end(s, e + 1);
    let to = value_end(s, q)?;
    Some(Span {
        name: at,
        name_end,
        from: q + 1,
        to,
        next: to + 1,
    })
}

// The next attribute, where blanks go from `at` to `from`: they part it from what stands before.
pub(crate) fn attribute_behind(s: &[u8], at: usize, from: usize) -> Option<Span>
    requires { Reached s.now at from × (drop from s.now ≡ after_blanks (drop at s.now)) }
    ensures { Spanned s.now at (next_of (drop at s.now)) result }
{
    if is_blank(byte_at(s, at)) {
        return attribute(s, from);
    }
    None
}

// The next attribute, which blanks part from what stands before `at`.
pub(crate) fn next_attribute(s: &[u8], at: usize) -> Option<Span>
    requires { at ≤ length s.now }
    ensures { Spanned s.now at (next_of (drop at s.now)) result }
{
    attribute_behind(s, at, blanks_end(s, at))
}

// The attribute of a name among the first `count` from `at` on.
pub(crate) fn find_attribute(s: &[u8], at: usize, count: usize, wanted: &[u8]) -> Option<Span>
    requires { at ≤ length s.now }
    ensures { Sought s.now at (attribute_named wanted.now (attributes_at count (drop at s.now))) result }
{
    let mut i = at;
    for _k in 0..count {
        let a = next_attribute(s, i)?;
        if is_same(&s[a.name..a.name_end], wanted) {
            return Some(a);
        }
        i = a.next;
    }
    None
}

// 1 for a name without a prefix, which counts, 0 for one with a prefix.
fn own_one(s: &[u8], at: usize, end: usize) -> usize
    requires { (at ≤ end) × (end ≤ length s.now) }
    ensures { result ≡ cond (prefixed (part at (end - at) s.now)) 0 1 }
{
    if is_prefixed(s, at, end) { 0 } else { 1 }
}

// How many of the first `count` attributes from `at` on have no prefix.
pub(crate) fn count_own(s: &[u8], at: usize, count: usize) -> usize
    requires { at ≤ length s.now }
    ensures { result ≡ length (own (attributes_at count (drop at s.now))) }
{
    let mut i = at;
    let mut n = 0;
    for _k in 0..count {
        let Some(a) = next_attribute(s, i) else {
            return n;
        };
        n += own_one(s, a.name, a.name_end);
        i = a.next;
    }
    n
}
