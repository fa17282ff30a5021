// Media types, extensions, relationship ids.
ghost use Rattle.std.specs.Prelude.{◌≡◌, ◌+◌, drop};
ghost use Rattle.std.specs.Option.{option_map};
ghost use Rattle.chars.specs.Bytes.{semicolon};
ghost use Rattle.chars.specs.Classes.{classes};
ghost use Rattle.chars.specs.Lists.{split};
ghost use Rattle.names.specs.Types.{type_and_parameters, media_type, extension, identifier};
ghost use Rattle.names.specs.Reading.{Parts, pair_length};

use crate::members::{all_members, past_members};
use crate::table::{is_letter, table};
use crate::units::all_units;
use base::bytes::byte_at;
use chars::search::{Alphabet, has_no};
use chars::units::Grammar;

// A token, the byte b and a token, from index `from` up to a semicolon or the end: where they end.
fn pair_end(t: &[u8; 256], s: &[u8], from: usize, b: u8) -> Option<usize>
    requires { (t.now ≡ classes) × Parts b }
    ensures { result ≡ option_map (λ n. from + n) (pair_length b (drop from s.now)) }
{
    let i = past_members(t, Alphabet::Token, s, from);
    if (i == from) | (byte_at(s, i) != b) {
        return None;
    }
    let j = i + 1;
    let e = past_members(t, Alphabet::Token, s, j);
    if (e == j) | ((e < s.len()) & (byte_at(s, e) != b';')) {
        return None;
    }
    Some(e)
}

// The stretches between semicolons: a slash parts the first, `=` each other.
fn is_type_and_parameters(t: &[u8; 256], s: &[u8]) -> bool
    requires { t.now ≡ classes }
    ensures { result ≡ type_and_parameters (split semicolon s.now) }
{
    let n = s.len();
    let mut i = 0;
    let mut b = b'/';
    loop {
        let Some(e) = pair_end(t, s, i, b) else {
            return false;
        };
        if e == n {
            return true;
        }
        i = e + 1;
        b = b'=';
    }
}

pub fn is_media_type(s: &[u8]) -> bool
    ensures { result ≡ media_type s.now }
{
    let n = s.len();
    if (3 <= n) & (n <= 127) {
        let t = table();
        return is_type_and_parameters(&t, s);
    }
    false
}

pub fn is_extension(s: &[u8]) -> bool
    ensures { result ≡ extension s.now }
{
    let n = s.len();
    if 31 < n {
        return false;
    }
    let t = table();
    (1 <= n) & has_no(s, b'.') & all_units(&t, Grammar::Segment, s)
}

pub fn is_id(s: &[u8]) -> bool
    ensures { result ≡ identifier s.now }
{
    let n = s.len();
    if 63 < n {
        return false;
    }
    let t = table();
    let b = byte_at(s, 0);
    (1 <= n) & (is_letter(&t, b) | (b == b'_')) & all_members(&t, Alphabet::Id, s)
}
