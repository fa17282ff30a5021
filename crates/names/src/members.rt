// Texts of bytes of a set.
ghost use Rattle.std.specs.Prelude.{◌≡◌, ◌+◌, drop};
ghost use Rattle.chars.specs.Bytes.{member};
ghost use Rattle.chars.specs.Classes.{classes};
ghost use Rattle.chars.specs.Lists.{every, first_passing, first_not};

use crate::table::{
    BAR, COLON, DOT, NUMBER_SIGN, PLUS, QUESTION, SLASH, STAR, UNDERSCORE, class, table,
};
use chars::search::Alphabet;

pub(crate) fn is_member(t: &[u8; 256], a: Alphabet, b: u8) -> bool
    requires { t.now ≡ classes }
    ensures { result ≡ member a b }
{
    let k = class(t, b);
    match a {
        Alphabet::Token => (k <= STAR) | ((NUMBER_SIGN <= k) & (k <= BAR)),
        Alphabet::Scheme => (k <= DOT) | (k == PLUS),
        Alphabet::Id => k <= UNDERSCORE,
        Alphabet::SchemeEnd => (COLON <= k) & (k <= NUMBER_SIGN),
        Alphabet::AuthorityEnd => (SLASH <= k) & (k <= NUMBER_SIGN),
        Alphabet::PathEnd => (QUESTION <= k) & (k <= NUMBER_SIGN),
    }
}

// The index of the first byte outside the set from index `from` on, or the length.
pub(crate) fn past_members(t: &[u8; 256], a: Alphabet, s: &[u8], from: usize) -> usize
    requires { t.now ≡ classes }
    ensures { result ≡ from + first_not (member a) (drop from s.now) }
{
    for i in from..s.len() {
        if !is_member(t, a, s[i]) {
            return i;
        }
    }
    from.max(s.len())
}

pub(crate) fn all_members(t: &[u8; 256], a: Alphabet, s: &[u8]) -> bool
    requires { t.now ≡ classes }
    ensures { result ≡ every (member a) s.now }
{
    past_members(t, a, s, 0) == s.len()
}

pub(crate) fn first_by(t: &[u8; 256], a: Alphabet, s: &[u8]) -> usize
    requires { t.now ≡ classes }
    ensures { result ≡ first_passing (member a) s.now }
{
    for i in 0..s.len() {
        if is_member(t, a, s[i]) {
            return i;
        }
    }
    s.len()
}

// The index of the first byte of the set, or the length.
pub fn first_member(a: Alphabet, s: &[u8]) -> usize
    ensures { result ≡ first_passing (member a) s.now }
{
    let t = table();
    first_by(&t, a, s)
}
