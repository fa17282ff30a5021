// Item names: a whole item, or a piece. `&s[..]` for `s`: docs/DECISIONS.md, Slices handed on.
ghost use Rattle.std.specs.Prelude.{◌≡◌, true, length, take};
ghost use Rattle.chars.specs.Bytes.{ascii};
ghost use Rattle.chars.specs.Classes.{classes};
ghost use Rattle.chars.specs.Folding.{equivalent};
ghost use Rattle.chars.specs.Lists.{every};
ghost use Rattle.names.specs.Reading.{read_number, read_numeral};
ghost use Rattle.names.specs.Items.{suffix, named, item_name, item_refusal, refusal_number};
ghost use Rattle.names.specs.Names.{part_name};
ghost use Rattle.names.specs.PlainBytes.{plain};

use crate::parts::is_name;
use crate::plain::plain_start;
use crate::table::{is_digit, table};
use base::bytes::byte_at;
use chars::folding::is_equivalent;
use chars::search::{find, find_past};
use output::refusals::Refusal;

// A whole item has no suffix; a piece has its number, and whether it is marked as the last. These are the two kinds of items, which the definitions of all
// crates tell apart by these names: an `Option` would call a whole item `None`.
#[derive(Clone, Copy)]
pub enum Suffix {
    Whole,
    Piece(usize, bool),
}

// An item name taken apart, into the length of its prefix and its suffix; or its refusal. Callers unpack it by `let .. else`, as document 01 wants.
#[derive(Clone, Copy)]
pub enum ItemName {
    Named(usize, Suffix),
    Refused(Refusal),
}

// The number that digits stand for, where it is below 10,000.
fn read_number(t: &[u8; 256], s: &[u8]) -> Option<usize>
    requires { t.now ≡ classes }
    ensures { result ≡ read_number 0 s.now }
{
    let mut v = 0;
    for i in 0..s.len() {
        let b = s[i];
        if !is_digit(t, b) {
            return None;
        }
        if 999 < v {
            return None;
        }
        v = v * 10 + (b - b'0') as usize;
    }
    Some(v)
}

// The number of a piece: without leading zeros.
fn read_numeral(t: &[u8; 256], s: &[u8]) -> Option<usize>
    requires { t.now ≡ classes }
    ensures { result ≡ read_numeral s.now }
{
    let n = s.len();
    if (n == 0) | ((n != 1) & (byte_at(s, 0) == b'0')) {
        return None;
    }
    read_number(t, s)
}

fn is_piece(s: &[u8]) -> bool
    ensures { result ≡ equivalent s.now (ascii "].piece") }
{
    is_equivalent(s, b"].piece")
}

fn is_last_piece(s: &[u8]) -> bool
    ensures { result ≡ equivalent s.now (ascii "].last.piece") }
{
    is_equivalent(s, b"].last.piece")
}

// What follows a name's last slash, where it begins with [. `Whole`: it makes no suffix.
fn read_suffix(s: &[u8]) -> Suffix
    ensures { result ≡ suffix s.now }
{
    let e = find(s, 0, b']');
    if e == 0 {
        return Suffix::Whole;
    }
    let last = is_last_piece(&s[e..]);
    if is_piece(&s[e..]) | last {
        if let Some(k) = read_numeral(&table(), &s[1..e]) {
            return Suffix::Piece(k, last);
        }
    }
    Suffix::Whole
}

// The name of a whole item, whose first `known` bytes are plain.
fn whole(s: &[u8], known: usize) -> ItemName
    requires { every plain (take known s.now) ≡ true }
    ensures { result ≡ named (part_name s.now) (length s.now) Suffix.Whole }
{
    if is_name(&s[..], known) {
        return ItemName::Named(s.len(), Suffix::Whole);
    }
    ItemName::Refused(Refusal::NotAPartName)
}

// Where all bytes are plain, none is a bracket, and the name has no suffix.
pub fn take_apart(s: &[u8]) -> ItemName
    ensures { result ≡ item_name s.now }
{
    let plain = plain_start(&s[..]);
    if s.len() <= plain {
        return whole(s, plain);
    }
    let p = find_past(s, b'/');
    if p == 0 {
        return ItemName::Refused(Refusal::NotAPartName);
    }
    if byte_at(&s[p..], 0) == b'[' {
        let x = read_suffix(&s[p..]);
        let Suffix::Piece(k, l) = x else {
            return ItemName::Refused(Refusal::BadSuffix);
        };
        let n = p - 1;
        if is_name(&s[..n], plain) {
            return ItemName::Named(n, Suffix::Piece(k, l));
        }
        return ItemName::Refused(Refusal::NotAPartName);
    }
    whole(s, plain)
}

// The refusal of a name, if it is refused.
pub fn refusal(n: ItemName) -> Option<Refusal>
    ensures { refusal_number result ≡ item_refusal n }
{
    match n {
        ItemName::Named(_, _) => None,
        ItemName::Refused(r) => Some(r),
    }
}
