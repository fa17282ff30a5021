// References, targets of relationships, pack IRIs and Relationships parts: each writes one text to the lent output.
ghost use Rattle.output.specs.Answers.{written};
ghost use Rattle.iri.specs.References.{resolve_reference};
ghost use Rattle.targets.specs.Targets.{resolve_target};
ghost use Rattle.pack.specs.Pack.{compose as composed, resolve_pack, located};
ghost use Rattle.targets.specs.Relationships.{relationships_part, source_part};
ghost use Rattle.abi.specs.Replies.{HandsOver};

use crate::replies::{Reply, of_resolved, of_written};
use iri::references::resolve_reference;
use pack::pack::{compose, resolve_pack};
use targets::relationships::{relationships_part, source_of};
use targets::targets::resolve_target;

// An external target, resolved against a package IRI.
#[unsafe(no_mangle)]
pub extern "C" fn opc_resolve_reference(base: &[u8], reference: &[u8], out: &mut [u8]) -> Reply
    ensures { HandsOver (written (resolve_reference base.now reference.now) out.old) 1 result out.new }
{
    of_written(resolve_reference(base, reference, out))
}

// The part name that an internal target leads to from its source.
#[unsafe(no_mangle)]
pub extern "C" fn opc_resolve_target(source: &[u8], target: &[u8], out: &mut [u8]) -> Reply
    ensures { HandsOver (written (resolve_target source.now target.now) out.old) 1 result out.new }
{
    of_written(resolve_target(source, target, out))
}

// The pack IRI of a part name, or of / for the package.
#[unsafe(no_mangle)]
pub extern "C" fn opc_compose_pack_iri(base: &[u8], name: &[u8], out: &mut [u8]) -> Reply
    ensures { HandsOver (written (composed base.now name.now) out.old) 1 result out.new }
{
    of_written(compose(base, name, out))
}

// The lengths of the package IRI and of the part name, which the output holds one after the other.
#[unsafe(no_mangle)]
pub extern "C" fn opc_resolve_pack_iri(iri: &[u8], out: &mut [u8]) -> Reply
    ensures { HandsOver (located (resolve_pack iri.now) out.old) 2 result out.new }
{
    of_resolved(resolve_pack(iri, out))
}

#[unsafe(no_mangle)]
pub extern "C" fn opc_relationships_part(source: &[u8], out: &mut [u8]) -> Reply
    ensures { HandsOver (written (relationships_part source.now) out.old) 1 result out.new }
{
    of_written(relationships_part(source, out))
}

#[unsafe(no_mangle)]
pub extern "C" fn opc_source_of_relationships_part(name: &[u8], out: &mut [u8]) -> Reply
    ensures { HandsOver (written (source_part name.now) out.old) 1 result out.new }
{
    of_written(source_of(name, out))
}
