// The calls that read a stream into a package.
ghost use Rattle.model.specs.Calls.{Call, Change};
ghost use Rattle.contract.specs.Answers.{of_done};
ghost use Rattle.contract.specs.Ran.{Ran};

use crate::related::take_relationships;
use crate::typed::take_types;
use contract::gate::check_package;
use markup::entries::Kind;
use markup::forms::{PLACES, check_form};
use output::refusals::Refusal;
use targets::targets::check_source;

pub fn read_types(pkg: &mut [u8], stream: &[u8]) -> Result<(), Refusal>
    ensures { Ran (Call.Changes (Change.ReadTypes stream.now)) pkg.old (of_done result) pkg.new }
{
    check_package(pkg)?;
    let mut places = [0; PLACES];
    let count = check_form(Kind::Types, stream, &mut places)?;
    take_types(pkg, stream, &places[..count.min(PLACES)])
}

pub fn read_relationships(pkg: &mut [u8], source: &[u8], stream: &[u8]) -> Result<(), Refusal>
    ensures { Ran (Call.Changes (Change.ReadRelationships source.now stream.now)) pkg.old (of_done result) pkg.new }
{
    check_package(pkg)?;
    check_source(source)?;
    let mut places = [0; PLACES];
    let count = check_form(Kind::Relationships, stream, &mut places)?;
    take_relationships(pkg, source, stream, &places[..count.min(PLACES)])
}
