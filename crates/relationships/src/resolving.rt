// Resolving a relationship: the IRI that its target leads to.
ghost use Rattle.std.specs.Prelude.{◌≡◌, [], ◌∷◌, ◌≤◌, ◌<◌, length};
ghost use Rattle.iri.specs.References.{resolve};
ghost use Rattle.pack.specs.Pack.{unfragmented};
ghost use Rattle.model.specs.Fields.{first, source_field, id_field, package_field};
ghost use Rattle.model.specs.Calls.{Call, Print};
ghost use Rattle.output.specs.Answers.{Text, filled};
ghost use Rattle.output.specs.Refusals.{number_of};
ghost use Rattle.store.specs.Layout.{count_of};
ghost use Rattle.store.specs.Packages.{Shape};
ghost use Rattle.contract.specs.Ran.{Ran};
ghost use Rattle.relationships.specs.Resolutions.{of_resolution, LedTo, RowResolved};

use crate::calls::check_key;
use chars::folded::fold_into;
use chars::search::find;
use contract::entries::locate;
use contract::gate::check_package;
use contract::search::SearchKey;
use contract::{EXTERNAL_TAG, RELATIONSHIPS};
use iri::references::{put_reference, relative_path};
use names::iris::is_package_iri;
use output::refusals::{Refusal, Unwritten};
use pack::pack::put_pack_iri;
use parts::runs::is_any_part;
use store::header::count;
use store::rows::{field, tag};

// The answer: the length of the IRI; of an internal target also whether the part is held.
#[derive(Clone, Copy)]
pub enum Resolution {
    Internal { length: usize, held: bool },
    External { length: usize },
}

// Judges what a call asks for: source, id, package IRI.
fn check_asked(source: &[u8], id: &[u8], base: &[u8]) -> Result<(), Refusal>
    ensures { number_of result ≡ first (source_field source.now ∷ id_field id.now ∷ package_field base.now ∷ []) }
{
    check_key(source, id)?;
    if is_package_iri(base) {
        return Ok(());
    }
    Err(Refusal::BadTarget)
}

// The pack IRI of the path resolved from the source.
fn resolve_internal(
    pkg: &[u8],
    source: &[u8],
    target: &[u8],
    base: &[u8],
    out: &mut [u8],
) -> Result<Resolution, Unwritten>
    requires { Shape pkg.now × (length source.now ≤ 255) × (length target.now ≤ 255) × (length base.now ≤ 255) }
    ensures { LedTo pkg.now source.now target.now base.now out.old (of_resolution result out.new) }
{
    let mut path = [0; 512];
    let k = relative_path(true, source, target, &mut path);
    let length = put_pack_iri(base, &path[..k], out);
    if out.len() < length {
        return Err(Unwritten::TooShort(length));
    }
    let held = is_any_part(pkg, &path[..k]);
    Ok(Resolution::Internal { length, held })
}

// The target resolved against the package IRI without its fragment.
fn resolve_external(target: &[u8], base: &[u8], out: &mut [u8]) -> Result<Resolution, Unwritten>
    requires { (length target.now ≤ 255) × (length base.now ≤ 255) }
    ensures { of_resolution result out.new ≡ filled 3 out.old (Text (resolve (unfragmented base.now) target.now) (1 ∷ 0 ∷ [])) }
{
    let k = find(base, 0, b'#');
    let length = put_reference(&base[..k], target, out);
    if out.len() < length {
        return Err(Unwritten::TooShort(length));
    }
    Ok(Resolution::External { length })
}

// The relationship in row r, resolved. A package holds no longer source and target than these; a foreign buffer may.
fn resolve_row(pkg: &[u8], r: usize, base: &[u8], out: &mut [u8]) -> Result<Resolution, Unwritten>
    requires { Shape pkg.now × (r < count_of pkg.now) × (length base.now ≤ 255) }
    ensures { RowResolved pkg.now r base.now out.old (of_resolution result out.new) }
{
    let target = field(pkg, r, 3);
    if 255 < target.len() {
        return Err(Unwritten::Refused(Refusal::NotHeld));
    }
    if tag(pkg, r) == EXTERNAL_TAG {
        return resolve_external(target, base, out);
    }
    let source = field(pkg, r, 0);
    if 255 < source.len() {
        return Err(Unwritten::Refused(Refusal::NotHeld));
    }
    resolve_internal(pkg, source, target, base, out)
}

// What a relationship leads to: internal, a pack IRI; external, an IRI.
pub fn resolve_relationship(
    pkg: &[u8],
    source: &[u8],
    id: &[u8],
    base: &[u8],
    out: &mut [u8],
) -> Result<Resolution, Unwritten>
    ensures { Ran (Call.Prints (Print.ResolveRelationship source.now id.now base.now) out.old) pkg.now (of_resolution result out.new) pkg.now }
{
    check_package(pkg)?;
    check_asked(source, id, base)?;
    let mut f = [0; 256];
    fold_into(&mut f, source);
    let w = SearchKey {
        set: RELATIONSHIPS,
        at: 0,
        length: source.len(),
        tag: 0,
    };
    let r = locate(pkg, w, &f, id);
    if r < count(pkg) {
        return resolve_row(pkg, r, base, out);
    }
    Err(Unwritten::Refused(Refusal::NotHeld))
}
