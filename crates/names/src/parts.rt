// Part names. `&s[..]` for `s`: docs/DECISIONS.md, Slices handed on.
ghost use Rattle.std.specs.Prelude.{◌≡◌, true, take, drop};
ghost use Rattle.chars.specs.Bytes.{ascii, dot, slash, segment_byte};
ghost use Rattle.chars.specs.Lists.{every, split, all, after_last};
ghost use Rattle.chars.specs.Folding.{equivalent, ends_in};
ghost use Rattle.names.specs.Names.{segment, part_name, reserved, extension_at};
ghost use Rattle.names.specs.PlainBytes.{plain, Known};

use crate::plain::{plain_from, plain_start};
use crate::table::lay_table;
use crate::units::all_units;
use base::bytes::byte_at;
use chars::folding::{ends_in, is_equivalent};
use chars::search::{find, find_past};
use chars::units::Grammar;

// A segment, from its first byte to the next slash. Its first `known` bytes stand for themselves, and are not looked at again.
fn is_segment(t: &[u8; 256], s: &[u8], known: usize) -> bool
    requires { Known segment_byte t.now s.now known }
    ensures { result ≡ segment s.now }
{
    let n = s.len();
    if n == 0 {
        return false;
    }
    let no_dot = byte_at(s, n - 1) != b'.';
    if n <= known {
        return no_dot;
    }
    no_dot & all_units(t, Grammar::Segment, &s[known..])
}

// The stretches between slashes, from index `from` on: each is handed to the segment judge. The first `known` bytes of s are plain.
fn all_segments(t: &[u8; 256], s: &[u8], from: usize, known: usize) -> bool
    requires { Known plain t.now s.now known }
    ensures { result ≡ all segment (split slash (drop from s.now)) }
{
    let n = s.len();
    if n < from {
        return false;
    }
    let mut i = from;
    loop {
        let e = find(s, i, b'/');
        let ok = is_segment(t, &s[i..e], plain_from(known, i));
        if ok {
            if e == n {
                return true;
            }
            i = e + 1;
        } else {
            return false;
        }
    }
}

// A part name whose first `known` bytes are plain. Where all are, no class is looked up, and the table is not laid out.
pub(crate) fn is_name(s: &[u8], known: usize) -> bool
    requires { every plain (take known s.now) ≡ true }
    ensures { result ≡ part_name s.now }
{
    let n = s.len();
    if n < 2 {
        return false;
    }
    if 255 < n {
        return false;
    }
    if byte_at(s, 0) == b'/' {
        let mut t = [0; 256];
        lay_table(&mut t, known < n);
        return all_segments(&t, s, 1, known);
    }
    false
}

pub fn is_part_name(s: &[u8]) -> bool
    ensures { result ≡ part_name s.now }
{
    is_name(&s[..], plain_start(&s[..]))
}

fn is_rels(s: &[u8]) -> bool
    ensures { result ≡ equivalent s.now (ascii "_rels") }
{
    is_equivalent(s, b"_rels")
}

fn ends_in_rels(s: &[u8]) -> bool
    ensures { result ≡ ends_in (ascii ".rels") s.now }
{
    ends_in(s, b".rels")
}

pub fn is_reserved(s: &[u8]) -> bool
    ensures { result ≡ reserved s.now }
{
    let p = find_past(s, b'/');
    if p == 0 {
        return false;
    }
    let n = p - 1;
    let q = find_past(&s[..n], b'/');
    if ends_in_rels(&s[p..]) {
        return is_rels(&s[q..n]);
    }
    false
}

// The place behind the last dot, 0 if there is none.
fn past_dot(s: &[u8]) -> usize
    ensures { result ≡ after_last dot s.now }
{
    find_past(s, b'.')
}

// Where a name's extension starts, 0 if it has none: the C interface hands this number on.
pub fn extension_at(s: &[u8]) -> usize
    ensures { result ≡ extension_at s.now }
{
    let i = find_past(s, b'/');
    let d = past_dot(&s[i..]);
    if d == 0 {
        return 0;
    }
    i + d
}
