// Values between quote marks.
ghost use Rattle.std.specs.Prelude.{◌≡◌, true, ◌+◌, ◌≤◌, ◌<◌, length, drop, MatchOption};
ghost use Rattle.chars.specs.Lists.{begins as beginsWith};
ghost use Rattle.markup.specs.Marks.{value_unit, quotable, quote_mark};
ghost use Rattle.markup.specs.Walks.{plain, NoEntity, EntityIs, UnitIs};

use crate::marks::stands;
use base::bytes::byte_at;

// A byte or an entity in a value: how many bytes it takes, and the byte that it means.
#[derive(Clone, Copy)]
pub(crate) struct Entity {
    pub length: usize,
    pub byte: u8,
}

pub(crate) fn is_quote_mark(b: u8) -> bool
    ensures { result ≡ quote_mark b }
{
    (b == b'"') | (b == b'\'')
}

// Whether t, of two bytes at least, stands at i. Its second byte is asked first: it tells most entities apart, and five whole texts take 1.5 times as long.
fn is_entity(s: &[u8], i: usize, t: &[u8]) -> bool
    requires { (i ≤ length s.now) × (1 < length t.now) }
    ensures { result ≡ beginsWith t.now (drop i s.now) }
{
    if byte_at(s, i + 1) != t[1] {
        return false;
    }
    stands(s, i, t)
}

// The entity at index i. A test for each of the five: a table of them and a loop are no shorter. Inlined, since its answer would go by memory.
#[inline(always)]
pub(crate) fn entity_at(s: &[u8], i: usize) -> Option<Entity>
    requires { i ≤ length s.now }
    ensures { MatchOption result (NoEntity s.now i) (λ e. EntityIs s.now i e.length e.byte) }
{
    if is_entity(s, i, b"&lt;") {
        return Some(Entity {
            length: 4,
            byte: b'<',
        });
    }
    if is_entity(s, i, b"&gt;") {
        return Some(Entity {
            length: 4,
            byte: b'>',
        });
    }
    if is_entity(s, i, b"&amp;") {
        return Some(Entity {
            length: 5,
            byte: b'&',
        });
    }
    if is_entity(s, i, b"&apos;") {
        return Some(Entity {
            length: 6,
            byte: b'\'',
        });
    }
    if is_entity(s, i, b"&quot;") {
        return Some(Entity {
            length: 6,
            byte: b'"',
        });
    }
    None
}

// How many bytes the byte or entity at index i takes, if one may stand there.
fn unit_length(s: &[u8], i: usize) -> Option<usize>
    requires { i < length s.now }
    ensures { MatchOption result (value_unit (drop i s.now) ≡ 0) (UnitIs s.now i) }
{
    let b = s[i];
    if b == b'<' {
        return None;
    }
    if b == b'&' {
        let e = entity_at(s, i)?;
        return Some(e.length);
    }
    Some(1)
}

// A byte that may stand in a value and is no entity's first.
fn is_plain(b: u8) -> bool
    ensures { result ≡ plain b }
{
    (b != b'<') & (b != b'&')
}

// Whether 16 bytes from index i on are such: then they may be passed over. No branch for each of them, so that they are tested all at once.
fn are_plain(s: &[u8], i: usize) -> bool
    requires { i + 16 ≤ length s.now }
    ensures { result ≡ true → quotable (drop i s.now) ≡ quotable (drop (i + 16) s.now) }
{
    let mut all = true;
    for k in 0..16 {
        all = all & is_plain(s[i + k]);
    }
    all
}

// An index up to which all may stand in a value, by 16 bytes at a time.
fn skip_plain(s: &[u8]) -> usize
    ensures { (result ≤ length s.now) × (quotable s.now ≡ quotable (drop result s.now)) }
{
    let mut i = 0;
    while 16 <= s.len() - i {
        if !are_plain(s, i) {
            return i;
        }
        i += 16;
    }
    i
}

pub(crate) fn is_quotable(s: &[u8]) -> bool
    ensures { result ≡ quotable s.now }
{
    let mut i = skip_plain(s);
    while i < s.len() {
        let Some(n) = unit_length(s, i) else {
            return false;
        };
        i += n;
    }
    true
}
