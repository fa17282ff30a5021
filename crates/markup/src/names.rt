// Names in tags.
ghost use Rattle.std.specs.Prelude.{◌≡◌, ◌+◌, ◌-◌, ◌≤◌, length, drop};
ghost use Rattle.base.specs.Buffer.{part};
ghost use Rattle.chars.specs.Bytes.{letter, member};
ghost use Rattle.chars.specs.Lists.{first_not};
ghost use Rattle.chars.specs.declared.search.Alphabet.TheVariants.{Id};
ghost use Rattle.markup.specs.Marks.{name_first, id_at, name_at, prefixed};
ghost use Rattle.markup.specs.Walks.{Reached};

use base::bytes::byte_at;
use chars::search::has_no;

fn is_letter(b: u8) -> bool
    ensures { result ≡ letter b }
{
    ((b'A' <= b) & (b <= b'Z')) | ((b'a' <= b) & (b <= b'z'))
}

pub(crate) fn is_name_first(b: u8) -> bool
    ensures { result ≡ name_first b }
{
    (b == b'_') | is_letter(b)
}

fn is_name_byte(b: u8) -> bool
    ensures { result ≡ member Id b }
{
    (b == b'-') | (b == b'_') | (b == b'.') | ((b'0' <= b) & (b <= b'9')) | is_letter(b)
}

// The end of the name bytes that begin at `at`.
fn name_bytes_end(s: &[u8], at: usize) -> usize
    requires { at ≤ length s.now }
    ensures { Reached s.now at result × (result ≡ at + first_not (member Id) (drop at s.now)) }
{
    for i in at..s.len() {
        if !is_name_byte(s[i]) {
            return i;
        }
    }
    s.len()
}

// The end of the name without a prefix that begins at `at`; `at` if none does.
fn id_end(s: &[u8], at: usize) -> usize
    requires { at ≤ length s.now }
    ensures { Reached s.now at result × (result ≡ at + length (id_at (drop at s.now))) }
{
    if is_name_first(byte_at(s, at)) {
        return name_bytes_end(s, at);
    }
    at
}

// The end of the name that begins at `at`, its prefix included; `at` if none does.
pub(crate) fn name_end(s: &[u8], at: usize) -> usize
    requires { at ≤ length s.now }
    ensures { Reached s.now at result × (result ≡ at + length (name_at (drop at s.now))) }
{
    let e = id_end(s, at);
    if (e == at) | (byte_at(s, e) != b':') {
        return e;
    }
    let n = id_end(s, e + 1);
    if n == e + 1 {
        return e;
    }
    n
}

// Whether the name from `at` to `end` has a prefix.
pub(crate) fn is_prefixed(s: &[u8], at: usize, end: usize) -> bool
    requires { Reached s.now at end }
    ensures { result ≡ prefixed (part at (end - at) s.now) }
{
    !has_no(&s[at..end], b':')
}
