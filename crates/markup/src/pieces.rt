// Entries of a stream, one after the other.
ghost use Rattle.std.specs.Prelude.{◌≡◌, List, ℕ, ◌≤◌, length, drop};
ghost use Rattle.markup.specs.Tags.{start_tag};
ghost use Rattle.markup.specs.Streams.{Said, entry_then};
ghost use Rattle.markup.specs.Walks.{Reached};
ghost use Rattle.markup.specs.EntryPlaces.{Entering};
ghost use Rattle.markup.specs.PiecePlaces.{HeldAt, entry_in, PieceAt, EntryNextAt};

use crate::elements::content;
use crate::entries::{Entered, Kind, entry_of};
use crate::marks::Fault;
use crate::reader::next_of;
use crate::streams::{BELOW, Next};
use crate::tags::{end_tag, start_tag};

// The next entry: its tag's name begins at `at`, and it ends at `next`. Or the content ends there.
#[derive(Clone, Copy)]
pub(crate) enum Piece {
    Entered { at: usize, next: usize },
    Done(usize),
}

// Past what follows an entry's start tag, whose name stands from `at` to `end`: nothing, or what it holds and its end tag.
fn entry_held(s: &[u8], at: usize, end: usize, next: usize, empty: bool) -> Result<usize, Fault>
    requires { Reached s.now at end × (next ≤ length s.now) }
    ensures { HeldAt s.now at end next empty result }
{
    if empty {
        return Ok(next);
    }
    let e = content(s, next, BELOW, false)?;
    end_tag(s, e, at, end)
}

// The entry whose tag's name begins at `at`.
pub(crate) fn entry_piece(kind: Kind, s: &[u8], at: usize) -> Result<Piece, Fault>
    requires { at ≤ length s.now }
    ensures { PieceAt kind s.now at (λ (f : List ℕ → Said). entry_then kind f (start_tag (drop at s.now))) result }
{
    let Some(tag) = start_tag(s, at) else {
        return Err(Fault::Malformed);
    };
    if entry_of(kind, s, at, tag.name_end, tag.count).is_none() {
        return Err(Fault::Malformed);
    }
    let next = entry_held(s, at, tag.name_end, tag.next, tag.empty)?;
    Ok(Piece::Entered { at, next })
}

// The entry whose tag's name begins at `at`, by the places of its values.
pub(crate) fn entry_at(kind: Kind, s: &[u8], at: usize) -> Option<Entered>
    requires { at ≤ length s.now }
    ensures { Entering s.now (entry_in kind s.now at) result }
{
    let tag = start_tag(s, at)?;
    entry_of(kind, s, at, tag.name_end, tag.count)
}

// The next entry of the root's content, from `at` on.
pub(crate) fn next_entry(kind: Kind, s: &[u8], at: usize) -> Result<Piece, Fault>
    requires { at ≤ length s.now }
    ensures { EntryNextAt kind s.now at result }
{
    match next_of(s, at)? {
        Next::Tag(t) => entry_piece(kind, s, t),
        Next::End(n) => Ok(Piece::Done(n)),
    }
}
