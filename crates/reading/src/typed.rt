// The entries of a types stream: all judged, then all added.
ghost use Rattle.std.specs.Prelude.{◌≡◌, ◌≤◌, length, []};
ghost use Rattle.markup.specs.declared.entries.Kind.TheVariants.{Types};
ghost use Rattle.store.specs.Packages.{Shape};
ghost use Rattle.output.specs.Refusals.{number_of};
ghost use Rattle.contract.specs.Answers.{of_done};
ghost use Rattle.reading.specs.Notes.{LeftIn, Blank};
ghost use Rattle.reading.specs.Judging.{JudgedAt, JudgedAll, AllFielded};
ghost use Rattle.reading.specs.Entering.{typed_at, typed_first, Added, AddedAll, Placed, FieldedAt, TookAll};

use crate::judging::{judge_default, judge_override};
use crate::shadow::{SHADOW_CAPACITY, SHADOW_SIZE, left_in};
use contract::entries::put_row;
use contract::{DEFAULT_LIMIT, DEFAULT_TAG, DEFAULTS, OVERRIDE_LIMIT, OVERRIDE_TAG, OVERRIDES};
use markup::decoding::FIELD_SIZE;
use markup::fields::typed_fields;
use output::refusals::Refusal;
use store::header::{free, init, is_package};

// Judges the entry whose tag's name begins at `at`.
fn judge_typed(
    pkg: &[u8],
    stream: &[u8],
    at: usize,
    shadow: &mut [u8],
    defaults: usize,
    overrides: usize,
    room: usize,
) -> Result<usize, Refusal>
    requires shape { Shape pkg.now × Shape shadow.old × (at ≤ length stream.now) }
    requires left_in { LeftIn pkg.now 1 64 defaults × LeftIn pkg.now 2 64 overrides }
    ensures { JudgedAt Types [] pkg.now shadow.old shadow.new room (typed_at stream.now at) result }
{
    let mut key = [0; FIELD_SIZE];
    let mut media = [0; FIELD_SIZE];
    match typed_fields(stream, at, &mut key, &mut media) {
        Some(f) => {
            if f.default {
                return judge_default(
                    pkg,
                    shadow,
                    defaults,
                    room,
                    &key[..f.key],
                    &media[..f.media],
                );
            }
            judge_override(
                pkg,
                shadow,
                overrides,
                room,
                &key[..f.key],
                &media[..f.media],
            )
        }
        None => Err(Refusal::MalformedStream),
    }
}

// Judges the entries at these places, one after the other.
fn check_in_order(
    pkg: &[u8],
    stream: &[u8],
    places: &[usize],
    shadow: &mut [u8],
) -> Result<(), Refusal>
    requires shape { Shape pkg.now × Blank shadow.old }
    requires placed { Placed Types stream.now places.now }
    ensures { JudgedAll pkg.now (typed_first stream.now) (number_of result) }
{
    let defaults = left_in(pkg, DEFAULTS, DEFAULT_LIMIT);
    let overrides = left_in(pkg, OVERRIDES, OVERRIDE_LIMIT);
    let mut room = free(pkg);
    for &at in places {
        room -= judge_typed(pkg, stream, at, shadow, defaults, overrides, room)?;
    }
    Ok(())
}

// Judges the entries: the first refusal among them.
fn check_all(pkg: &[u8], stream: &[u8], places: &[usize]) -> Result<(), Refusal>
    requires shape { Shape pkg.now }
    requires placed { Placed Types stream.now places.now }
    ensures { JudgedAll pkg.now (typed_first stream.now) (number_of result) }
{
    let mut shadow = [0; SHADOW_SIZE];
    init(&mut shadow, SHADOW_CAPACITY);
    check_in_order(pkg, stream, places, &mut shadow)
}

// Puts in the entry whose tag's name begins at `at`. A foreign package may be one no longer after the entries before it.
fn add(pkg: &mut [u8], stream: &[u8], at: usize)
    requires { (at ≤ length stream.now) × FieldedAt (typed_at stream.now at) }
    ensures { Added (typed_at stream.now at) pkg.old pkg.new }
{
    let mut key = [0; FIELD_SIZE];
    let mut media = [0; FIELD_SIZE];
    match typed_fields(stream, at, &mut key, &mut media) {
        Some(f) => {
            if is_package(pkg) {
                if f.default {
                    let _ = put_row(
                        pkg,
                        Ok(()),
                        DEFAULT_LIMIT,
                        DEFAULT_TAG,
                        &key[..f.key],
                        &media[..f.media],
                        b"",
                        b"",
                    );
                } else {
                    let _ = put_row(
                        pkg,
                        Ok(()),
                        OVERRIDE_LIMIT,
                        OVERRIDE_TAG,
                        &key[..f.key],
                        &media[..f.media],
                        b"",
                        b"",
                    );
                }
            }
        }
        None => {}
    }
}

// Puts in the entries at these places, one after the other.
fn add_all(pkg: &mut [u8], stream: &[u8], places: &[usize])
    requires placed { Placed Types stream.now places.now }
    requires all_fielded { AllFielded (typed_first stream.now) }
    ensures { AddedAll (typed_first stream.now) pkg.old pkg.new }
{
    for &at in places {
        add(pkg, stream, at);
    }
}

// All entries or none.
pub(crate) fn take_types(pkg: &mut [u8], stream: &[u8], places: &[usize]) -> Result<(), Refusal>
    requires shape { Shape pkg.old }
    requires placed { Placed Types stream.now places.now }
    ensures { TookAll (typed_first stream.now) pkg.old (of_done result) pkg.new }
{
    check_all(pkg, stream, places)?;
    add_all(pkg, stream, places);
    Ok(())
}
