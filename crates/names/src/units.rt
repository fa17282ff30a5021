// Units: a byte that stands for itself, a triplet, a character of ucschar.
ghost use Rattle.std.specs.Prelude.{◌≡◌};
ghost use Rattle.chars.specs.Bytes.{within, unreserved, continuation};
ghost use Rattle.chars.specs.Classes.{classes};
ghost use Rattle.chars.specs.Lists.{tiled};
ghost use Rattle.chars.specs.Characters.{ucschar, char2, char3, char4, name_triplet, single, triplet, long_unit, unit};

use crate::table::{
    COLON, CONTINUATION, LEAD2, LEAD3, LEAD4, NUMBER_SIGN, TILDE, class, is_hex_digit,
};
use base::bytes::byte_at;
use chars::units::{Grammar, hex_value};

fn is_unreserved(t: &[u8; 256], b: u8) -> bool
    requires { t.now ≡ classes }
    ensures { result ≡ unreserved b }
{
    class(t, b) <= TILDE
}

fn is_continuation(t: &[u8; 256], b: u8) -> bool
    requires { t.now ≡ classes }
    ensures { result ≡ continuation b }
{
    class(t, b) == CONTINUATION
}

fn is_single(t: &[u8; 256], g: Grammar, b: u8) -> bool
    requires { t.now ≡ classes }
    ensures { result ≡ single g b }
{
    let k = class(t, b);
    match g {
        Grammar::Segment => k <= COLON,
        Grammar::Iri => k <= NUMBER_SIGN,
    }
}

// What the digits stand for is judged at once, either case.
fn is_name_triplet(t: &[u8; 256], b: u8, c: u8) -> bool
    requires { t.now ≡ classes }
    ensures { result ≡ name_triplet b c }
{
    if is_hex_digit(t, b) {
        if is_hex_digit(t, c) {
            let v = 16 * hex_value(b) + hex_value(c);
            return (v != 0x2F) & (v != 0x5C) & !is_unreserved(t, v);
        }
    }
    false
}

fn is_triplet(t: &[u8; 256], g: Grammar, b: u8, c: u8) -> bool
    requires { t.now ≡ classes }
    ensures { result ≡ triplet g b c }
{
    match g {
        Grammar::Segment => is_name_triplet(t, b, c),
        Grammar::Iri => is_hex_digit(t, b) & is_hex_digit(t, c),
    }
}

fn is_within(lo: u32, hi: u32, v: u32) -> bool
    ensures { result ≡ within lo hi v }
{
    (lo <= v) & (v <= hi)
}

fn is_ucschar(v: u32) -> bool
    ensures { result ≡ ucschar v }
{
    is_within(0xA0, 0xD7FF, v)
        | is_within(0xF900, 0xFDCF, v)
        | is_within(0xFDF0, 0xFFEF, v)
        | (is_within(0x10000, 0xDFFFD, v) & (v % 0x10000 <= 0xFFFD))
        | is_within(0xE1000, 0xEFFFD, v)
}

fn is_char2(t: &[u8; 256], a: u8, b: u8) -> bool
    requires { t.now ≡ classes }
    ensures { result ≡ char2 a b }
{
    let v = (a as u32) % 32 * 64 + (b as u32) % 64;
    (class(t, a) == LEAD2) & is_continuation(t, b) & is_ucschar(v)
}

fn is_char3(t: &[u8; 256], a: u8, b: u8, c: u8) -> bool
    requires { t.now ≡ classes }
    ensures { result ≡ char3 a b c }
{
    let v = (a as u32) % 16 * 4096 + (b as u32) % 64 * 64 + (c as u32) % 64;
    (class(t, a) == LEAD3)
        & is_continuation(t, b)
        & is_continuation(t, c)
        & (0x800 <= v)
        & is_ucschar(v)
}

fn is_char4(t: &[u8; 256], a: u8, b: u8, c: u8, d: u8) -> bool
    requires { t.now ≡ classes }
    ensures { result ≡ char4 a b c d }
{
    let v = (a as u32) % 8 * 262144
        + (b as u32) % 64 * 4096
        + (c as u32) % 64 * 64
        + (d as u32) % 64;
    (class(t, a) == LEAD4)
        & is_continuation(t, b)
        & is_continuation(t, c)
        & is_continuation(t, d)
        & (0x10000 <= v)
        & is_ucschar(v)
}

fn long_unit(t: &[u8; 256], g: Grammar, a: u8, b: u8, c: u8, d: u8) -> usize
    requires { t.now ≡ classes }
    ensures { result ≡ long_unit g a b c d }
{
    if (a == b'%') & is_triplet(t, g, b, c) {
        return 3;
    }
    if is_char2(t, a, b) {
        return 2;
    }
    if is_char3(t, a, b, c) {
        return 3;
    }
    if is_char4(t, a, b, c, d) {
        return 4;
    }
    0
}

// The length of the unit at the start, 0 for none, as `unit` says in crates/chars/specs/Characters.antt: `tiled` counts by that number.
pub(crate) fn unit_len(t: &[u8; 256], g: Grammar, s: &[u8]) -> usize
    requires { t.now ≡ classes }
    ensures { result ≡ unit g s.now }
{
    let a = byte_at(s, 0);
    if is_single(t, g, a) {
        return 1;
    }
    long_unit(t, g, a, byte_at(s, 1), byte_at(s, 2), byte_at(s, 3))
}

pub(crate) fn all_units(t: &[u8; 256], g: Grammar, s: &[u8]) -> bool
    requires { t.now ≡ classes }
    ensures { result ≡ tiled (unit g) 0 s.now }
{
    let mut i = 0;
    while i < s.len() {
        let n = unit_len(t, g, &s[i..]);
        if n == 0 {
            return false;
        }
        i += n;
    }
    true
}
