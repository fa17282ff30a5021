// Texts compared byte by byte.
ghost use Rattle.std.specs.Prelude.{◌≡◌};
ghost use Rattle.chars.specs.Bytes.{ascii};
ghost use Rattle.chars.specs.Lists.{same, begins as beginsWith};

pub fn is_same(a: &[u8], b: &[u8]) -> bool
    ensures { result ≡ same a.now b.now }
{
    a == b
}

// s begins with t.
pub fn begins(s: &[u8], t: &[u8]) -> bool
    ensures { result ≡ beginsWith t.now s.now }
{
    s.starts_with(t)
}

// The package, as a source or as the path of a pack IRI.
pub fn is_root(s: &[u8]) -> bool
    ensures { result ≡ same s.now (ascii "/") }
{
    is_same(s, b"/")
}
