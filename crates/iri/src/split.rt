// The components of an IRI: RFC 3986, appendix B.
ghost use Rattle.std.specs.Prelude.{◌≡◌};
ghost use Rattle.iri.specs.Components.{scheme_length, authority_length};
ghost use Rattle.iri.specs.Scratch.{SplitAt};

use base::bytes::byte_at;
use chars::search::{Alphabet, find};
use names::members::first_member;

// Where the first four components end. The fragment goes on to the end.
#[derive(Clone, Copy)]
pub struct Parts {
    pub scheme: usize,
    pub authority: usize,
    pub path: usize,
    pub query: usize,
}

// The length of the scheme with its colon, 0 for none.
pub fn scheme_len(s: &[u8]) -> usize
    ensures { result ≡ scheme_length s.now }
{
    let k = first_member(Alphabet::SchemeEnd, s);
    if byte_at(s, k) == b':' {
        if k != 0 {
            return k + 1;
        }
    }
    0
}

// The length of the authority with its two slashes, 0 for none.
pub fn authority_len(s: &[u8]) -> usize
    ensures { result ≡ authority_length s.now }
{
    if byte_at(s, 0) == b'/' {
        if byte_at(s, 1) == b'/' {
            return 2 + first_member(Alphabet::AuthorityEnd, &s[2..]);
        }
    }
    0
}

pub fn split(s: &[u8]) -> Parts
    ensures { SplitAt s.now result.scheme result.authority result.path result.query }
{
    let a = scheme_len(s);
    let b = a + authority_len(&s[a..]);
    let p = b + first_member(Alphabet::PathEnd, &s[b..]);
    let q = find(s, p, b'#');
    Parts {
        scheme: a,
        authority: b,
        path: p,
        query: q,
    }
}
