// The suffixes of pieces, written.
ghost use Rattle.std.specs.Prelude.{◌≡◌, ◌+◌, ◌≤◌, ◌<◌, length, take};
ghost use Rattle.base.specs.Buffer.{splice};
ghost use Rattle.names.specs.Numbers.{decimal4};
ghost use Rattle.pieces.specs.Suffixes.{suffix_text, tag_of_piece};

use base::moves::copy_in;

// How many bytes the longest suffix has, of a piece below 1,000.
pub(crate) const SUFFIX_SIZE: usize = 17;

// How many digits a number below 1,000 has.
fn digit_count(k: usize) -> usize
    requires { k < 1000 }
    ensures { (result ≡ length (decimal4 k)) × (result ≤ 3) }
{
    if k < 10 {
        return 1;
    }
    if k < 100 {
        return 2;
    }
    3
}

fn digit(d: usize) -> u8
    requires { d < 10 }
    ensures { result ≡ 48 + d }
{
    (48 + d) as u8
}

// Writes a number below 1,000 in decimal: by hand, as there is no heap for what `format!` makes.
fn put_number(out: &mut [u8], at: usize, k: usize)
    requires { (k < 1000) × (at + 3 ≤ length out.old) }
    ensures { out.new ≡ splice out.old at (decimal4 k) }
{
    if k < 10 {
        out[at] = digit(k);
        return;
    }
    if k < 100 {
        out[at] = digit(k / 10);
        out[at + 1] = digit(k % 10);
        return;
    }
    out[at] = digit(k / 100);
    out[at + 1] = digit(k / 10 % 10);
    out[at + 2] = digit(k % 10);
}

// How many bytes the suffix of piece k has.
pub(crate) fn suffix_length(k: usize, last: bool) -> usize
    requires { k < 1000 }
    ensures { (result ≡ length (suffix_text k last)) × (result ≤ 17) }
{
    let n = digit_count(k);
    if last {
        return 14 + n;
    }
    9 + n
}

// Writes the suffix of piece k. How many bytes it has.
pub(crate) fn put_suffix(out: &mut [u8], k: usize, last: bool) -> usize
    requires { (k < 1000) × (17 ≤ length out.old) }
    ensures { (take result out.new ≡ suffix_text k last) × (result ≡ length (suffix_text k last)) × (result ≤ 17) }
{
    let n = digit_count(k);
    copy_in(out, 0, b"/[");
    put_number(out, 2, k);
    if last {
        copy_in(out, 2 + n, b"].last.piece");
        return 14 + n;
    }
    copy_in(out, 2 + n, b"].piece");
    9 + n
}

// The tag of the row of piece k.
pub(crate) fn piece_tag(k: usize, last: bool) -> usize
    requires { k < 1000 }
    ensures { (result ≡ tag_of_piece k last) × (result < 32768) }
{
    if last {
        return 2 * (k + 1) + 1;
    }
    2 * (k + 1)
}
