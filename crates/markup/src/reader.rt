// The reader: it carries the lent stream along with how far it has got. The functions over it are thin: they take it apart, and leave the work to functions
// over a slice and a number.
ghost use Rattle.std.specs.Prelude.{◌≡◌};
ghost use Rattle.markup.specs.StreamPlaces.{ReadAt};

use crate::marks::Fault;
use crate::streams::{Next, next_tag};

#[derive(Drop)]
pub(crate) struct Reader<'a> {
    pub stream: &'a [u8],
    pub at: usize,
}

// The work: what stands next in a stream from a place on.
pub(crate) fn next_at(s: &[u8], at: usize) -> Result<Next, Fault>
    ensures { ReadAt s.now at result }
{
    if s.len() < at {
        return Err(Fault::Malformed);
    }
    next_tag(s, at)
}

// A reader at the start of a stream.
pub(crate) fn new<'a>(stream: &'a [u8]) -> Reader<'a>
    ensures { (result.stream ≡ stream.entry) × (result.at ≡ 0) }
{
    Reader { stream, at: 0 }
}

// The same stream, from another place on.
pub(crate) fn moved<'a>(r: Reader<'a>, at: usize) -> Reader<'a>
    ensures { (result.stream ≡ r.entry.stream) × (result.at ≡ at) }
{
    Reader {
        stream: r.stream,
        at,
    }
}

// What stands next.
pub(crate) fn next<'a>(r: Reader<'a>) -> Result<Next, Fault>
    ensures { ReadAt r.entry.stream.now r.entry.at result }
{
    next_at(r.stream, r.at)
}

// From a slice to a reader and back: whoever calls this is covered by the borrow checker.
pub(crate) fn next_of(stream: &[u8], at: usize) -> Result<Next, Fault>
    ensures { ReadAt stream.now at result }
{
    next(moved(new(stream), at))
}
