// Elements and content, each of which holds the other.
ghost use Rattle.std.specs.Prelude.{◌≡◌, ◌≤◌, length, drop};
ghost use Rattle.markup.specs.Walks.{WalkedElement, WalkedContent, stops};

use crate::comments::between;
use crate::marks::Fault;
use crate::names::{is_prefixed, name_end};
use crate::tags::{end_tag, opens, start_tag};

// Refuses a start tag whose name begins at `at`, `left` depths being left, if it is nested too deep, or stands in an entry and has no prefix.
fn let_start(s: &[u8], at: usize, left: usize, text: bool) -> Result<(), Fault>
    requires { at ≤ length s.now }
    ensures { result ≡ stops left text (drop at s.now) }
{
    if left == 0 {
        return Err(Fault::TooDeep);
    }
    if text {
        return Ok(());
    }
    if is_prefixed(s, at, name_end(s, at)) {
        return Ok(());
    }
    Err(Fault::Malformed)
}

// An element, from behind its `<` on, with what it holds and its end tag.
#[cycle(content_element)]
pub(crate) fn element(s: &[u8], at: usize, left: usize) -> Result<usize, Fault>
    requires { at ≤ length s.now }
    ensures { WalkedElement s.now at left result }
{
    let Some(tag) = start_tag(s, at) else {
        return Err(Fault::Malformed);
    };
    if tag.empty {
        return Ok(tag.next);
    }
    let e = content(s, tag.next, left, true)?;
    end_tag(s, e, at, tag.name_end)
}

// Content: what stands between tags, and elements, until no start tag stands there. There are `left` depths below.
#[cycle(content_element)]
pub(crate) fn content(s: &[u8], at: usize, left: usize, text: bool) -> Result<usize, Fault>
    requires { at ≤ length s.now }
    ensures { WalkedContent s.now at left text result }
{
    let mut i = at;
    loop {
        let t = between(s, i, text)?;
        if !opens(s, t) {
            return Ok(t);
        }
        let_start(s, t + 1, left, text)?;
        i = element(s, t + 1, left - 1)?;
    }
}
