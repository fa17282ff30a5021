// The calls on relationships.
ghost use Rattle.std.specs.Prelude.{◌≡◌, [], ◌∷◌};
ghost use Rattle.model.specs.Fields.{first, source_field, id_field, relationship_fields};
ghost use Rattle.model.specs.Calls.{Call, Change};
ghost use Rattle.output.specs.Refusals.{number_of};
ghost use Rattle.contract.specs.Answers.{of_done};
ghost use Rattle.contract.specs.Ran.{Ran};

use contract::entries::{drop_row, put_row};
use contract::gate::check_package;
use contract::{RELATIONSHIP_LIMIT, RELATIONSHIP_TAG, RELATIONSHIPS};
use names::iris::is_package_iri;
use names::types::is_id;
use output::refusals::Refusal;
use targets::targets::{TargetMode, check_source, check_target};

// Judges a relationship's key: its source, then its id.
pub fn check_key(source: &[u8], id: &[u8]) -> Result<(), Refusal>
    ensures { number_of result ≡ first (source_field source.now ∷ id_field id.now ∷ []) }
{
    check_source(source)?;
    if is_id(id) {
        return Ok(());
    }
    Err(Refusal::BadRelationshipField)
}

// Judges a relationship's fields, whose source is one.
pub fn check_own(
    source: &[u8],
    id: &[u8],
    kind: &[u8],
    mode: u64,
    target: &[u8],
) -> Result<(), Refusal>
    requires { source_field source.now ≡ 0 }
    ensures { number_of result ≡ relationship_fields source.now id.now kind.now mode target.now }
{
    if !is_id(id) {
        return Err(Refusal::BadRelationshipField);
    }
    if !is_package_iri(kind) {
        return Err(Refusal::BadRelationshipField);
    }
    check_target(TargetMode::try_from(mode)?, source, target)
}

// Judges a relationship's fields.
fn check_fields(
    source: &[u8],
    id: &[u8],
    kind: &[u8],
    mode: u64,
    target: &[u8],
) -> Result<(), Refusal>
    ensures { number_of result ≡ relationship_fields source.now id.now kind.now mode target.now }
{
    check_source(source)?;
    check_own(source, id, kind, mode, target)
}

pub fn put_relationship(
    pkg: &mut [u8],
    source: &[u8],
    id: &[u8],
    kind: &[u8],
    mode: u64,
    target: &[u8],
) -> Result<(), Refusal>
    ensures { Ran (Call.Changes (Change.PutRelationship source.now id.now kind.now mode target.now)) pkg.old (of_done result) pkg.new }
{
    check_package(pkg)?;
    check_fields(source, id, kind, mode, target)?;
    put_row(
        pkg,
        Ok(()),
        RELATIONSHIP_LIMIT,
        RELATIONSHIP_TAG + mode as usize,
        source,
        id,
        kind,
        target,
    )
}

pub fn drop_relationship(pkg: &mut [u8], source: &[u8], id: &[u8]) -> Result<(), Refusal>
    ensures { Ran (Call.Changes (Change.DropRelationship source.now id.now)) pkg.old (of_done result) pkg.new }
{
    check_package(pkg)?;
    check_key(source, id)?;
    drop_row(pkg, RELATIONSHIPS, source, id)
}
