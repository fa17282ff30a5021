// A stream with the lines of a run of rows.
ghost use Rattle.std.specs.Prelude.{◌≡◌, ◌^◌, ◌≤◌, length};
ghost use Rattle.output.specs.Answers.{of_written};
ghost use Rattle.store.specs.Layout.{slot_count, count_of};
ghost use Rattle.store.specs.Packages.{Shape};
ghost use Rattle.streams.specs.Streams.{run_size, Lined, Listed, Streamed, Answered};

use crate::entry_lines::{put_relationship_line, put_type_line};
use contract::{DEFAULT_TAG, OVERRIDE_TAG};
use output::refusals::{Refusal, Unwritten};
use output::writing::emit;
use store::header::used;
use store::rows::{field, row_size, tag};

// The line of row i.
fn put_line(pkg: &[u8], i: usize, out: &mut [u8], at: usize) -> usize
    requires { at ≤ 2 ^ 53 }
    ensures { Lined pkg.now i out.old at result out.new }
{
    let t = tag(pkg, i);
    if t == DEFAULT_TAG {
        return put_type_line(
            out,
            at,
            b"<Default Extension=\"",
            field(pkg, i, 0),
            field(pkg, i, 1),
        );
    }
    if t == OVERRIDE_TAG {
        return put_type_line(
            out,
            at,
            b"<Override PartName=\"",
            field(pkg, i, 0),
            field(pkg, i, 1),
        );
    }
    put_relationship_line(
        out,
        at,
        t,
        field(pkg, i, 1),
        field(pkg, i, 2),
        field(pkg, i, 3),
    )
}

// The lines of the rows from one up to, not including, the row `to`.
fn put_lines(pkg: &[u8], from: usize, to: usize, out: &mut [u8], start: usize) -> usize
    requires { (to ≤ slot_count) × (start ≤ 2 ^ 52) }
    ensures { Listed pkg.now from to out.old start result out.new }
{
    let mut at = start;
    for i in from..to {
        at = put_line(pkg, i, out, at);
    }
    at
}

// The whole stream: the lines between a head and a foot.
fn put_stream(pkg: &[u8], from: usize, to: usize, head: &[u8], foot: &[u8], out: &mut [u8]) -> usize
    requires { (to ≤ slot_count) × (length head.now ≤ 1000) × (length foot.now ≤ 1000) }
    ensures { Streamed pkg.now from to head.now foot.now out.old result out.new }
{
    let a = emit(out, 0, b"<?xml version=\"1.0\" encoding=\"UTF-8\"?>\n");
    let b = emit(out, a, head);
    let c = put_lines(pkg, from, to, out, b);
    emit(out, c, foot)
}

// How many bytes the rows from one up to, not including, the row `to` have together, as their slots tell.
fn run_size(pkg: &[u8], from: usize, to: usize) -> usize
    requires { Shape pkg.now × (to ≤ count_of pkg.now) }
    ensures { result ≡ run_size pkg.now from to }
{
    let mut n = 0;
    for i in from..to {
        n += row_size(pkg, i);
    }
    n
}

// The answer of a call that writes such a stream. No rows of a package have more bytes than all of them use; those of a foreign buffer, which may all lie in
// one place, are not looked at then. A first pass over none of the output tells the length.
pub(crate) fn write_stream(
    pkg: &[u8],
    from: usize,
    to: usize,
    head: &[u8],
    foot: &[u8],
    out: &mut [u8],
) -> Result<usize, Unwritten>
    requires { Shape pkg.now × (to ≤ count_of pkg.now) × (length head.now ≤ 1000) × (length foot.now ≤ 1000) }
    ensures { Answered pkg.now from to head.now foot.now out.old (of_written result out.new) }
{
    if used(pkg) < run_size(pkg, from, to) {
        return Err(Unwritten::Refused(Refusal::NotHeld));
    }
    let need = put_stream(pkg, from, to, head, foot, &mut out[..0]);
    if out.len() < need {
        return Err(Unwritten::TooShort(need));
    }
    Ok(put_stream(pkg, from, to, head, foot, out))
}
