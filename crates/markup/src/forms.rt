// The form of a whole stream: whether it is accepted, and where its entries stand.
ghost use Rattle.std.specs.Prelude.{◌≡◌, ◌≤◌, length};
ghost use Rattle.markup.specs.FormPlaces.{place_count, noted, RunAt, FormAt};

use crate::entries::Kind;
use crate::marks::Fault;
use crate::pieces::{Piece, next_entry};
use crate::streams::{Root, find_root, let_end};
use crate::tags::end_tag;

// How many entries' places are noted: one more than any set takes.
pub const PLACES: usize = 257;

// The root's content: where it ends and how many entries it has.
#[derive(Clone, Copy)]
struct Run {
    end: usize,
    count: usize,
}

// Notes the place of an entry, the n-th, where there is room.
fn note(places: &mut [usize; PLACES], n: usize, at: usize)
    requires { length places.old ≡ place_count }
    ensures { places.new ≡ noted places.old n at }
{
    if n < PLACES {
        places[n] = at;
    }
}

// Notes the places of the entries of the root's content, which begins at `at`.
fn note_entries(kind: Kind, s: &[u8], at: usize, places: &mut [usize; PLACES]) -> Result<Run, Fault>
    requires { (at ≤ length s.now) × (length places.old ≡ place_count) }
    ensures { RunAt kind s.now at places.new result }
{
    let mut i = at;
    let mut n = 0;
    loop {
        match next_entry(kind, s, i)? {
            Piece::Entered { at, next } => {
                note(places, n, at);
                i = next;
                n += 1;
            }
            Piece::Done(end) => {
                return Ok(Run { end, count: n });
            }
        }
    }
}

// Whether a stream is accepted, and how many entries it has; notes the places of the first ones.
pub fn check_form(kind: Kind, s: &[u8], places: &mut [usize; PLACES]) -> Result<usize, Fault>
    requires { length places.old ≡ place_count }
    ensures { FormAt kind s.now places.new result }
{
    match find_root(kind, s)? {
        Root::Holds { name, end, next } => {
            let run = note_entries(kind, s, next, places)?;
            let e = end_tag(s, run.end, name, end)?;
            let_end(s, e)?;
            Ok(run.count)
        }
        Root::Empty(next) => {
            let_end(s, next)?;
            Ok(0)
        }
    }
}
