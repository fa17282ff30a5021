// Reads lines, each a call with its fields parted by a space, and prints what the engine answers: the number, the values, the bytes written.
//   R base reference   T source target   C package name   P pack-iri   F source   B name
// The input is RFC 3986's table of 5.4 (but the empty reference), the marked examples, and others of each call.
#![tactic(auto)]

ghost use Rattle.std.specs.Prelude.{◌≤◌, length, IfOk};

use base::bytes::byte_at;
use iri::references::resolve_reference;
use output::refusals::Unwritten;
use pack::pack::{Resolved, compose, resolve_pack};
use std::io;
use std::io::{Print, Read};
use targets::relationships::{relationships_part, source_of};
use targets::targets::resolve_target;

fn print_text(rt: &HostRuntime, out: &[u8], n: usize) -> io::Result<()> {
    match out.get(..n) {
        Some(text) => rt.write_all(text),
        None => Ok(()),
    }
}

fn print_written(rt: &HostRuntime, w: Result<usize, Unwritten>, out: &[u8]) -> io::Result<()> {
    match w {
        Ok(n) => {
            print!(rt; "0 {n} ")?;
            print_text(rt, out, n)
        }
        Err(Unwritten::TooShort(n)) => print!(rt; "3 {n} "),
        Err(Unwritten::Refused(r)) => print!(rt; "{} 0 ", r.number()),
    }
}

fn print_found(rt: &HostRuntime, a: usize, b: usize, out: &[u8]) -> io::Result<()> {
    print!(rt; "0 {a} {b} ")?;
    match a.checked_add(b) {
        Some(n) => print_text(rt, out, n),
        None => Ok(()),
    }
}

fn print_resolved(rt: &HostRuntime, w: Result<Resolved, Unwritten>, out: &[u8]) -> io::Result<()> {
    match w {
        Ok(found) => print_found(rt, found.package, found.part, out),
        Err(Unwritten::TooShort(n)) => print!(rt; "3 {n} 0 "),
        Err(Unwritten::Refused(r)) => print!(rt; "{} 0 0 ", r.number()),
    }
}

// What the field from `from` on is, up to the next space or the end.
fn field(s: &[u8], from: usize) -> &[u8] {
    let rest = s.get(from..).unwrap_or(b"");
    rest.split(|&b| b == b' ').next().unwrap_or(b"")
}

fn run_call(rt: &HostRuntime, call: u8, a: &[u8], b: &[u8]) -> io::Result<()> {
    let mut out = [0u8; 1100];
    let w = match call {
        b'R' => resolve_reference(a, b, &mut out),
        b'T' => resolve_target(a, b, &mut out),
        b'C' => compose(a, b, &mut out),
        b'F' => relationships_part(a, &mut out),
        b'B' => source_of(a, &mut out),
        _ => {
            let w = resolve_pack(a, &mut out);
            return print_resolved(rt, w, &out);
        }
    };
    print_written(rt, w, &out)
}

fn run_line(rt: &HostRuntime, s: &[u8]) -> io::Result<()> {
    let a = field(s, 2);
    let b = field(s, a.len() + 3);
    run_call(rt, byte_at(s, 0), a, b)?;
    rt.write_all(b"\n")
}

fn run_lines(rt: &HostRuntime, input: &[u8]) -> io::Result<()> {
    for line in input.split_inclusive(|&b| b == b'\n') {
        run_line(rt, line.strip_suffix(b"\n").unwrap_or(line))?;
    }
    Ok(())
}

// Reads to the end of the input, or till the buffer is full. How many bytes came.
// A read brings as many bytes as it will, so no iterator counts them; the library's read_to_end needs a heap.
fn read_full(rt: &HostRuntime, input: &mut [u8]) -> io::Result<usize>
    ensures { IfOk result (λ n. n ≤ length input.new) }
{
    let mut n = 0;
    while n < input.len() {
        let k = rt.stdin().read(&mut input[n..])?;
        if k == 0 {
            break;
        }
        n += k;
    }
    Ok(n)
}

fn main(rt: HostRuntime) -> io::Result<()> {
    let mut input = [0u8; 65536];
    let n = read_full(&rt, &mut input)?;
    run_lines(&rt, &input[..n])
}
