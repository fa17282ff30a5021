// What stands between tags: blanks or text, and comments.
ghost use Rattle.std.specs.Prelude.{◌≡◌, true, ◌+◌, ◌≤◌, length, drop};
ghost use Rattle.chars.specs.Lists.{begins};
ghost use Rattle.markup.specs.Marks.{dashes, comment_mark, comment as commentIn};
ghost use Rattle.markup.specs.Elements.{after_gap, between as betweenTags};
ghost use Rattle.markup.specs.Walks.{Reached, Walked};

use crate::marks::{Fault, blanks_end, expected, stands};
use base::bytes::byte_at;
use chars::search::find;

// Where the first `--` stands from `at` on, or the length.
fn dashes_at(s: &[u8], at: usize) -> usize
    requires { at ≤ length s.now }
    ensures { Reached s.now at result × (result ≡ at + dashes (drop at s.now)) }
{
    let mut i = at;
    loop {
        let d = find(s, i, b'-');
        if s.len() <= d {
            return s.len();
        }
        if byte_at(s, d + 1) == b'-' {
            return d;
        }
        i = d + 1;
    }
}

// Past the comment whose mark stands at `at`.
pub(crate) fn comment(s: &[u8], at: usize) -> Result<usize, Fault>
    requires { (at ≤ length s.now) × (begins comment_mark (drop at s.now) ≡ true) }
    ensures { Walked s.now (at + 4) (commentIn (drop at s.now)) result }
{
    expected(s, dashes_at(s, at + 4), b"-->")
}

// Past the blanks or the text at `at`.
fn gap_end(s: &[u8], at: usize, text: bool) -> usize
    requires { at ≤ length s.now }
    ensures { Reached s.now at result × (drop result s.now ≡ after_gap text (drop at s.now)) }
{
    if text {
        return find(s, at, b'<');
    }
    blanks_end(s, at)
}

// Past all that stands between tags.
pub(crate) fn between(s: &[u8], at: usize, text: bool) -> Result<usize, Fault>
    requires { at ≤ length s.now }
    ensures { Walked s.now at (betweenTags text (drop at s.now)) result }
{
    let mut i = at;
    loop {
        let t = gap_end(s, i, text);
        if !stands(s, t, b"<!--") {
            return Ok(t);
        }
        i = comment(s, t)?;
    }
}
