// Start tags and end tags.
ghost use Rattle.std.specs.Prelude.{◌≡◌, false, ◌-◌, ◌≤◌, ◌<◌, length, drop};
ghost use Rattle.base.specs.Buffer.{part};
ghost use Rattle.markup.specs.Tags.{attributes_at, named, end_tag, opens as opensTag};
ghost use Rattle.markup.specs.Walks.{Reached, Walked, mark_of, ListedAt, EndAt, TagAt};

use crate::attributes::{attribute_behind, find_attribute};
use crate::marks::{Fault, blanks_end, expected, stands};
use crate::names::{is_name_first, name_end};
use crate::repeats::read_chunk;
use base::bytes::byte_at;

// A start tag: the end of its name, the number of its attributes, what follows it, and whether it is an empty tag.
#[derive(Clone, Copy)]
pub(crate) struct StartTag {
    pub name_end: usize,
    pub count: usize,
    pub next: usize,
    pub empty: bool,
}

// The attributes of a tag, no two of one name: how many there are, and what stands behind them and blanks.
#[derive(Clone, Copy)]
struct Listed {
    count: usize,
    next: usize,
}

// More attributes than these are read by chunks.
const FEW: usize = 32;

// Whether a start tag begins at `at`.
pub(crate) fn opens(s: &[u8], at: usize) -> bool
    requires { at ≤ length s.now }
    ensures { result ≡ opensTag (drop at s.now) }
{
    (byte_at(s, at) == b'<') && is_name_first(byte_at(s, at + 1))
}

// The place of a name's mark in an array of 64.
fn mark_of(s: &[u8], at: usize, end: usize) -> usize
    requires { (at < end) × (end ≤ length s.now) }
    ensures { (result ≡ mark_of (part at (end - at) s.now)) × (result < 64) }
{
    (s[at] as usize * 5 + s[end - 1] as usize * 3 + (end - at) % 64 * 11) % 64
}

// Whether one of the first `count` attributes from `from` on has the name from `at` to `end`. A name that left no mark is not looked for.
fn is_repeated(s: &[u8], from: usize, count: usize, at: usize, end: usize, marked: bool) -> bool
    requires { (from ≤ length s.now) × Reached s.now at end × (marked ≡ false → named (part at (end - at) s.now) (attributes_at count (drop from s.now)) ≡ false) }
    ensures { result ≡ named (part at (end - at) s.now) (attributes_at count (drop from s.now)) }
{
    marked && find_attribute(s, from, count, &s[at..end]).is_some()
}

// The attributes of a tag whose name ends at `at`, chunk by chunk.
fn many(s: &[u8], at: usize) -> Option<Listed>
    requires { at ≤ length s.now }
    ensures { ListedAt s.now at result }
{
    let mut i = at;
    let mut k = 0;
    loop {
        let chunk = read_chunk(s, i)?;
        if chunk.count == 0 {
            return Some(Listed {
                count: k,
                next: blanks_end(s, chunk.end),
            });
        }
        i = chunk.end;
        k += chunk.count;
    }
}

// The attributes of a tag whose name ends at `at`.
fn attributes(s: &[u8], at: usize) -> Option<Listed>
    requires { at ≤ length s.now }
    ensures { ListedAt s.now at result }
{
    let mut marks = [false; 64];
    let mut i = at;
    let mut k = 0;
    loop {
        let behind = blanks_end(s, i);
        let Some(a) = attribute_behind(s, i, behind) else {
            return Some(Listed {
                count: k,
                next: behind,
            });
        };
        if k == FEW {
            return many(s, at);
        }
        let m = mark_of(s, a.name, a.name_end);
        if is_repeated(s, at, k, a.name, a.name_end, marks[m]) {
            return None;
        }
        marks[m] = true;
        i = a.next;
        k += 1;
    }
}

// The end of a tag, behind its attributes and blanks.
fn tag_end(s: &[u8], name_end: usize, count: usize, at: usize) -> Option<StartTag>
    requires { at ≤ length s.now }
    ensures { EndAt s.now name_end count at result }
{
    if stands(s, at, b"/>") {
        return Some(StartTag {
            name_end,
            count,
            next: at + 2,
            empty: true,
        });
    }
    if stands(s, at, b">") {
        return Some(StartTag {
            name_end,
            count,
            next: at + 1,
            empty: false,
        });
    }
    None
}

// The start tag whose name begins at `at`, behind its `<`.
pub(crate) fn start_tag(s: &[u8], at: usize) -> Option<StartTag>
    requires { at ≤ length s.now }
    ensures { TagAt s.now at result }
{
    let name_end = name_end(s, at);
    if name_end == at {
        return None;
    }
    let all = attributes(s, name_end)?;
    tag_end(s, name_end, all.count, all.next)
}

// Past the end tag of the name from `from` to `to`.
pub(crate) fn end_tag(s: &[u8], at: usize, from: usize, to: usize) -> Result<usize, Fault>
    requires { (at ≤ length s.now) × Reached s.now from to }
    ensures { Walked s.now at (end_tag (part from (to - from) s.now) (drop at s.now)) result }
{
    if !stands(s, at, b"</") {
        return Err(Fault::Malformed);
    }
    let e = expected(s, at + 2, &s[from..to])?;
    expected(s, blanks_end(s, e), b">")
}
