// The shadow: a package of the call's own, where the entries of a stream are noted while they are judged. So nothing of the lent package is touched before every entry has passed.
ghost use Rattle.std.specs.Prelude.{◌≡◌, ◌+◌, ◌^◌, ◌≤◌, ◌<◌, ltb, length};
ghost use Rattle.chars.specs.FoldedNames.{folded_size};
ghost use Rattle.output.specs.Refusals.{number_of};
ghost use Rattle.model.specs.Fields.{when};
ghost use Rattle.store.specs.Rows.{make_row};
ghost use Rattle.store.specs.Packages.{Shape};
ghost use Rattle.reading.specs.Notes.{LeftIn, NotedRow};

use contract::entries::{put_row, row_count};
use output::refusals::Refusal;

// How many bytes the entries of a shadow have at most: 64 Defaults of 31 bytes and 64 Overrides of 255, with 3 more each; 256 relationships are fewer.
pub(crate) const SHADOW_CAPACITY: usize = 18688;

// That, and what a package has besides.
pub(crate) const SHADOW_SIZE: usize = 51456;

// How many entries more the set takes.
pub(crate) fn left_in(pkg: &[u8], set: usize, limit: usize) -> usize
    requires { Shape pkg.now × (set ≤ 3) }
    ensures { LeftIn pkg.now set limit result }
{
    let n = row_count(pkg, set);
    if limit < n {
        return 0;
    }
    limit - n
}

// Judges so many bytes where there is room for so many.
fn check_room(room: usize, size: usize) -> Result<(), Refusal>
    ensures { number_of result ≡ when (ltb room size) 15 }
{
    if room < size {
        return Err(Refusal::Full);
    }
    Ok(())
}

// Notes an entry of so many bytes in its set, which takes `left` more; unless its key is taken in the package or in the shadow, the set is full, or there is no room for it in the package. How many bytes it takes.
pub(crate) fn note(
    shadow: &mut [u8],
    taken: bool,
    left: usize,
    room: usize,
    size: usize,
    t: usize,
    f0: &[u8],
    f1: &[u8],
    f2: &[u8],
    f3: &[u8],
) -> Result<usize, Refusal>
    requires shape { Shape shadow.old × (length f0.now ≤ folded_size) }
    requires f0_nonzero { (0 < length f0.now) × (t < 2 ^ 32) }
    ensures { NotedRow shadow.old shadow.new taken left room size (make_row t f0.now f1.now f2.now f3.now) result }
{
    if taken {
        return Err(Refusal::Taken);
    }
    put_row(shadow, check_room(room, size), left, t, f0, f1, f2, f3)?;
    Ok(size)
}
