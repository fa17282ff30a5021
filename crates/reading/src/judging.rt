// An entry that was read, judged beside the package and the entries before it, which are noted in the shadow. Their other fields are the same for all there: what tells them apart is the key.
ghost use Rattle.std.specs.Prelude.{◌≡◌, ◌+◌, ◌^◌, ◌≤◌, ◌<◌, length, []};
ghost use Rattle.chars.specs.Bytes.{ascii};
ghost use Rattle.chars.specs.FoldedNames.{folded_size};
ghost use Rattle.markup.specs.declared.entries.Kind.TheVariants.{Types, Relationships};
ghost use Rattle.model.specs.Fields.{source_field};
ghost use Rattle.store.specs.Rows.{make_row};
ghost use Rattle.store.specs.Packages.{Shape};
ghost use Rattle.contract.specs.Rows.{set_of, key_in};
ghost use Rattle.reading.specs.Notes.{LeftIn, NotedBeside};
ghost use Rattle.reading.specs.Judging.{a_default, an_override, a_relationship, JudgedAs};

use crate::shadow::note;
use contract::entries::is_held;
use contract::{DEFAULT_TAG, EXTERNAL_TAG, OVERRIDE_TAG, RELATIONSHIP_TAG};
use output::refusals::Refusal;
use relationships::calls::check_own;
use types::calls::{check_default, check_override};

// Notes an entry of a types stream; its tag tells its set, which takes `left` more.
fn note_typed(
    pkg: &[u8],
    shadow: &mut [u8],
    left: usize,
    room: usize,
    t: usize,
    key: &[u8],
    media: &[u8],
) -> Result<usize, Refusal>
    requires shape { Shape pkg.now × Shape shadow.old × (length key.now ≤ folded_size) }
    requires key_nonzero { (0 < length key.now) × (t < 2 ^ 32) }
    ensures { NotedBeside pkg.now shadow.old shadow.new (key_in (set_of t) key.now t []) left room (length key.now + length media.now) (make_row t key.now (ascii "a/a") [] []) result }
{
    let taken = is_held(pkg, t, key, b"");
    let size = key.len() + media.len();
    note(shadow, taken, left, room, size, t, key, b"a/a", b"", b"")
}

pub(crate) fn judge_default(
    pkg: &[u8],
    shadow: &mut [u8],
    left: usize,
    room: usize,
    extension: &[u8],
    media: &[u8],
) -> Result<usize, Refusal>
    requires shape { Shape pkg.now × Shape shadow.old }
    requires left_in { LeftIn pkg.now 1 64 left }
    ensures { JudgedAs Types [] pkg.now shadow.old shadow.new room (a_default extension.now media.now) result }
{
    check_default(extension, media)?;
    note_typed(pkg, shadow, left, room, DEFAULT_TAG, extension, media)
}

pub(crate) fn judge_override(
    pkg: &[u8],
    shadow: &mut [u8],
    left: usize,
    room: usize,
    name: &[u8],
    media: &[u8],
) -> Result<usize, Refusal>
    requires shape { Shape pkg.now × Shape shadow.old }
    requires left_in { LeftIn pkg.now 2 64 left }
    ensures { JudgedAs Types [] pkg.now shadow.old shadow.new room (an_override name.now media.now) result }
{
    check_override(name, media)?;
    note_typed(pkg, shadow, left, room, OVERRIDE_TAG, name, media)
}

// The source is that of all of them, and was judged before.
pub(crate) fn judge_relationship(
    pkg: &[u8],
    shadow: &mut [u8],
    left: usize,
    room: usize,
    source: &[u8],
    id: &[u8],
    iri: &[u8],
    mode: u8,
    target: &[u8],
) -> Result<usize, Refusal>
    requires shape { Shape pkg.now × Shape shadow.old }
    requires left_in { LeftIn pkg.now 3 256 left × (source_field source.now ≡ 0) }
    ensures { JudgedAs Relationships source.now pkg.now shadow.old shadow.new room (a_relationship source.now id.now iri.now mode target.now) result }
{
    check_own(source, id, iri, mode as u64, target)?;
    let taken = is_held(pkg, RELATIONSHIP_TAG, source, id);
    let size = source.len() + id.len() + iri.len() + target.len();
    note(
        shadow,
        taken,
        left,
        room,
        size,
        EXTERNAL_TAG,
        b"/",
        id,
        b"a:",
        b"a",
    )
}
