// Streams: the root, and the pieces of its content.
ghost use Rattle.std.specs.Prelude.{◌≡◌, false, ◌≤◌, length, drop};
ghost use Rattle.markup.specs.Tags.{start_tag};
ghost use Rattle.markup.specs.Elements.{between as betweenTags};
ghost use Rattle.markup.specs.Streams.{root_of, after_declaration, said};
ghost use Rattle.markup.specs.StreamPlaces.{Rooted, PassedAt, StepAt, NextAt, EndsWith};

use crate::comments::between;
use crate::elements::element;
use crate::entries::{Kind, is_root};
use crate::marks::{Fault, stands};
use crate::names::{is_prefixed, name_end};
use crate::tags::{opens, start_tag};

// How many depths there are below the root's own children.
pub(crate) const BELOW: usize = 14;

// Where the root's content begins and where the root's name stands; or the root is an empty tag, which ends there.
#[derive(Clone, Copy)]
pub(crate) enum Root {
    Holds {
        name: usize,
        end: usize,
        next: usize,
    },
    Empty(usize),
}

// What stands next in the root's content: a start tag without a prefix, whose name begins there; an element that is passed over and ends there;
// or the end of the content.
#[derive(Clone, Copy)]
pub(crate) enum Step {
    Unprefixed(usize),
    Passed(usize),
    Over(usize),
}

// What stands next, elements that are passed over being left behind.
#[derive(Clone, Copy)]
pub(crate) enum Next {
    Tag(usize),
    End(usize),
}

// Behind the declaration, if the stream begins with it.
fn declaration_end(s: &[u8]) -> usize
    ensures { (result ≤ length s.now) × (drop result s.now ≡ after_declaration s.now) }
{
    if stands(s, 0, b"<?xml version=\"1.0\" encoding=\"UTF-8\"?>") {
        return 38;
    }
    0
}

// The root's tag, whose name begins at `at`.
fn root_tag(kind: Kind, s: &[u8], at: usize) -> Result<Root, Fault>
    requires { at ≤ length s.now }
    ensures { Rooted kind s.now (root_of kind (start_tag (drop at s.now))) result }
{
    let Some(tag) = start_tag(s, at) else {
        return Err(Fault::Malformed);
    };
    if !is_root(kind, s, at, tag.name_end, tag.count) {
        return Err(Fault::Malformed);
    }
    if tag.empty {
        return Ok(Root::Empty(tag.next));
    }
    Ok(Root::Holds {
        name: at,
        end: tag.name_end,
        next: tag.next,
    })
}

// The root of a stream.
pub(crate) fn find_root(kind: Kind, s: &[u8]) -> Result<Root, Fault>
    ensures { Rooted kind s.now (said kind s.now) result }
{
    let t = between(s, declaration_end(s), false)?;
    if !opens(s, t) {
        return Err(Fault::Malformed);
    }
    root_tag(kind, s, t + 1)
}

// An element of a prefixed name, whose name begins at `at`, passed over.
fn passed_over(s: &[u8], at: usize) -> Result<Step, Fault>
    requires { at ≤ length s.now }
    ensures { PassedAt s.now at result }
{
    let e = element(s, at, BELOW)?;
    Ok(Step::Passed(e))
}

// What stands next from `at` on.
fn next_step(s: &[u8], at: usize) -> Result<Step, Fault>
    requires { at ≤ length s.now }
    ensures { StepAt s.now at result }
{
    let t = between(s, at, false)?;
    if !opens(s, t) {
        return Ok(Step::Over(t));
    }
    if is_prefixed(s, t + 1, name_end(s, t + 1)) {
        return passed_over(s, t + 1);
    }
    Ok(Step::Unprefixed(t + 1))
}

// What stands next from `at` on, behind all that is passed over.
pub(crate) fn next_tag(s: &[u8], at: usize) -> Result<Next, Fault>
    requires { at ≤ length s.now }
    ensures { NextAt s.now at result }
{
    let mut i = at;
    loop {
        match next_step(s, i)? {
            Step::Passed(next) => {
                i = next;
            }
            Step::Unprefixed(t) => {
                return Ok(Next::Tag(t));
            }
            Step::Over(n) => {
                return Ok(Next::End(n));
            }
        }
    }
}

// Refuses what stands from `at` on, behind the root, unless these are blanks and comments up to the stream's end.
pub(crate) fn let_end(s: &[u8], at: usize) -> Result<(), Fault>
    requires { at ≤ length s.now }
    ensures { EndsWith s.now (betweenTags false (drop at s.now)) result }
{
    let t = between(s, at, false)?;
    if t == s.len() {
        return Ok(());
    }
    Err(Fault::Malformed)
}
