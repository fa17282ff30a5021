// The entries of a stream of relationships: all judged, then all added.
ghost use Rattle.std.specs.Prelude.{◌≡◌, ◌≤◌, length};
ghost use Rattle.markup.specs.declared.entries.Kind.TheVariants.{Relationships};
ghost use Rattle.model.specs.Fields.{source_field};
ghost use Rattle.store.specs.Packages.{Shape};
ghost use Rattle.output.specs.Refusals.{number_of};
ghost use Rattle.contract.specs.Answers.{of_done};
ghost use Rattle.reading.specs.Notes.{LeftIn, Blank};
ghost use Rattle.reading.specs.Judging.{JudgedAt, JudgedAll, AllFielded};
ghost use Rattle.reading.specs.Entering.{related_at, related_first, Added, AddedAll, Placed, FieldedAt, TookAll};

use crate::judging::judge_relationship;
use crate::shadow::{SHADOW_CAPACITY, SHADOW_SIZE, left_in};
use contract::entries::put_row;
use contract::{RELATIONSHIP_LIMIT, RELATIONSHIP_TAG, RELATIONSHIPS};
use markup::decoding::FIELD_SIZE;
use markup::fields::related_fields;
use output::refusals::Refusal;
use store::header::{free, init, is_package};

// Judges the entry whose tag's name begins at `at`.
fn judge_related(
    pkg: &[u8],
    source: &[u8],
    stream: &[u8],
    at: usize,
    shadow: &mut [u8],
    left: usize,
    room: usize,
) -> Result<usize, Refusal>
    requires shape { Shape pkg.now × Shape shadow.old × (at ≤ length stream.now) }
    requires left_in { LeftIn pkg.now 3 256 left × (source_field source.now ≡ 0) }
    ensures { JudgedAt Relationships source.now pkg.now shadow.old shadow.new room (related_at source.now stream.now at) result }
{
    let mut id = [0; FIELD_SIZE];
    let mut iri = [0; FIELD_SIZE];
    let mut target = [0; FIELD_SIZE];
    match related_fields(stream, at, &mut id, &mut iri, &mut target) {
        Some(f) => judge_relationship(
            pkg,
            shadow,
            left,
            room,
            source,
            &id[..f.id],
            &iri[..f.iri],
            f.mode.number(),
            &target[..f.target],
        ),
        None => Err(Refusal::MalformedStream),
    }
}

// Judges the entries at these places, one after the other.
fn check_in_order(
    pkg: &[u8],
    source: &[u8],
    stream: &[u8],
    places: &[usize],
    shadow: &mut [u8],
) -> Result<(), Refusal>
    requires shape { Shape pkg.now × Blank shadow.old }
    requires placed { Placed Relationships stream.now places.now × (source_field source.now ≡ 0) }
    ensures { JudgedAll pkg.now (related_first source.now stream.now) (number_of result) }
{
    let left = left_in(pkg, RELATIONSHIPS, RELATIONSHIP_LIMIT);
    let mut room = free(pkg);
    for &at in places {
        room -= judge_related(pkg, source, stream, at, shadow, left, room)?;
    }
    Ok(())
}

// Judges the entries: the first refusal among them.
fn check_all(pkg: &[u8], source: &[u8], stream: &[u8], places: &[usize]) -> Result<(), Refusal>
    requires shape { Shape pkg.now }
    requires placed { Placed Relationships stream.now places.now × (source_field source.now ≡ 0) }
    ensures { JudgedAll pkg.now (related_first source.now stream.now) (number_of result) }
{
    let mut shadow = [0; SHADOW_SIZE];
    init(&mut shadow, SHADOW_CAPACITY);
    check_in_order(pkg, source, stream, places, &mut shadow)
}

// Puts in the entry whose tag's name begins at `at`. A foreign package may be one no longer after the entries before it.
fn add(pkg: &mut [u8], source: &[u8], stream: &[u8], at: usize)
    requires { (at ≤ length stream.now) × FieldedAt (related_at source.now stream.now at) }
    ensures { Added (related_at source.now stream.now at) pkg.old pkg.new }
{
    let mut id = [0; FIELD_SIZE];
    let mut iri = [0; FIELD_SIZE];
    let mut target = [0; FIELD_SIZE];
    match related_fields(stream, at, &mut id, &mut iri, &mut target) {
        Some(f) => {
            if is_package(pkg) {
                let _ = put_row(
                    pkg,
                    Ok(()),
                    RELATIONSHIP_LIMIT,
                    RELATIONSHIP_TAG + f.mode.number() as usize,
                    source,
                    &id[..f.id],
                    &iri[..f.iri],
                    &target[..f.target],
                );
            }
        }
        None => {}
    }
}

// Puts in the entries at these places, one after the other.
fn add_all(pkg: &mut [u8], source: &[u8], stream: &[u8], places: &[usize])
    requires placed { Placed Relationships stream.now places.now }
    requires all_fielded { AllFielded (related_first source.now stream.now) }
    ensures { AddedAll (related_first source.now stream.now) pkg.old pkg.new }
{
    for &at in places {
        add(pkg, source, stream, at);
    }
}

// All entries or none.
pub(crate) fn take_relationships(
    pkg: &mut [u8],
    source: &[u8],
    stream: &[u8],
    places: &[usize],
) -> Result<(), Refusal>
    requires shape { Shape pkg.old }
    requires placed { Placed Relationships stream.now places.now × (source_field source.now ≡ 0) }
    ensures { TookAll (related_first source.now stream.now) pkg.old (of_done result) pkg.new }
{
    check_all(pkg, source, stream, places)?;
    add_all(pkg, source, stream, places);
    Ok(())
}
