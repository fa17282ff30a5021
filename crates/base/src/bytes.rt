// The bytes of a text.
ghost use Rattle.std.specs.Prelude.{◌≡◌, get_or};

// The byte at index i. Past the end stands 0.
pub fn byte_at(s: &[u8], i: usize) -> u8
    ensures { result ≡ get_or s.now i 0 }
{
    s.get(i).copied().unwrap_or(0)
}
