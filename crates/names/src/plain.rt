// Plain bytes: most of those that names are made of, told by comparisons, eight at a time.
ghost use Rattle.std.specs.Prelude.{◌≡◌, true, ◌+◌, ◌-◌, ◌≤◌, length, take, drop};
ghost use Rattle.chars.specs.Lists.{every};
ghost use Rattle.names.specs.PlainBytes.{plain};

// No part name has more bytes.
const MOST: usize = 255;

fn is_plain(b: u8) -> bool
    ensures { result ≡ plain b }
{
    ((b'&' <= b) & (b <= b';'))
        | ((b'@' <= b) & (b <= b'Z'))
        | ((b'a' <= b) & (b <= b'z'))
        | (b == b'_')
}

// No byte is tested by itself: `all` takes twice as long at 24 bytes.
fn is_plain_eight(s: &[u8], i: usize) -> bool
    requires { i + 8 ≤ length s.now }
    ensures { result ≡ every plain (take 8 (drop i s.now)) }
{
    let mut plain = true;
    for k in 0..8 {
        plain &= is_plain(s[i + k]);
    }
    plain
}

// So many bytes at the beginning of s are plain, perhaps more. The last eight may reach back; fewer are not looked at.
pub(crate) fn plain_start(s: &[u8]) -> usize
    ensures { every plain (take result s.now) ≡ true }
{
    let n = s.len().min(MOST);
    if n < 8 {
        return 0;
    }
    let last = n - 8;
    let mut i = 0;
    while i < n {
        let at = i.min(last);
        if is_plain_eight(s, at) {
            i = at + 8;
        } else {
            return i;
        }
    }
    i
}

// How many of the first `plain` bytes stand from index i on.
pub(crate) fn plain_from(plain: usize, i: usize) -> usize
    ensures { result ≡ plain - i }
{
    plain.saturating_sub(i)
}
