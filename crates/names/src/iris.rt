// IRIs.
ghost use Rattle.std.specs.Prelude.{◌≡◌, ◌+◌, drop};
ghost use Rattle.chars.specs.Classes.{classes};
ghost use Rattle.chars.specs.Lists.{index_of};
ghost use Rattle.names.specs.Iris.{scheme, colon_first, iri, package_iri};

use crate::members::{all_members, first_by, first_member};
use crate::table::{is_letter, table};
use crate::units::all_units;
use base::bytes::byte_at;
use chars::search::{Alphabet, find, has_no};
use chars::units::Grammar;

fn is_scheme(t: &[u8; 256], s: &[u8]) -> bool
    requires { t.now ≡ classes }
    ensures { result ≡ scheme s.now }
{
    is_letter(t, byte_at(s, 0)) & all_members(t, Alphabet::Scheme, s)
}

// What follows the first b.
fn after(s: &[u8], b: u8) -> &[u8]
    ensures { result.now ≡ drop (index_of b s.now + 1) s.now }
{
    let n = s.len();
    let i = find(s, 0, b);
    if i < n {
        let j = i + 1;
        return &s[j..];
    }
    &s[n..]
}

// A colon stands before every / ? #.
pub fn has_colon_first(s: &[u8]) -> bool
    ensures { result ≡ colon_first s.now }
{
    byte_at(s, first_member(Alphabet::SchemeEnd, s)) == b':'
}

pub fn is_iri(s: &[u8]) -> bool
    ensures { result ≡ iri s.now }
{
    let n = s.len();
    if 255 < n {
        return false;
    }
    let t = table();
    let k = first_by(&t, Alphabet::SchemeEnd, s);
    (1 <= n)
        & all_units(&t, Grammar::Iri, s)
        & has_no(after(s, b'#'), b'#')
        & ((byte_at(s, k) != b':') | is_scheme(&t, &s[..k]))
}

pub fn is_package_iri(s: &[u8]) -> bool
    ensures { result ≡ package_iri s.now }
{
    is_iri(s) & has_colon_first(s)
}
