// The calls on Defaults, Overrides, media types and relationships.
ghost use Rattle.std.specs.Prelude.{[]};
ghost use Rattle.model.specs.Calls.{Call, Change, Print};
ghost use Rattle.abi.specs.Replies.{Replied};

use crate::replies::{Reply, of_done, of_resolution, of_type_origin, of_written};
use relationships::calls::{drop_relationship, put_relationship};
use relationships::resolving::resolve_relationship;
use types::calls::{drop_default, drop_override, put_default, put_override};
use types::media::media_type;
use types::origin::type_origin;

#[unsafe(no_mangle)]
pub extern "C" fn opc_put_default(pkg: &mut [u8], extension: &[u8], media: &[u8]) -> Reply
    ensures { Replied (Call.Changes (Change.PutDefault extension.now media.now)) pkg.old result [] pkg.new }
{
    of_done(put_default(pkg, extension, media))
}

#[unsafe(no_mangle)]
pub extern "C" fn opc_drop_default(pkg: &mut [u8], extension: &[u8]) -> Reply
    ensures { Replied (Call.Changes (Change.DropDefault extension.now)) pkg.old result [] pkg.new }
{
    of_done(drop_default(pkg, extension))
}

#[unsafe(no_mangle)]
pub extern "C" fn opc_put_override(pkg: &mut [u8], name: &[u8], media: &[u8]) -> Reply
    ensures { Replied (Call.Changes (Change.PutOverride name.now media.now)) pkg.old result [] pkg.new }
{
    of_done(put_override(pkg, name, media))
}

#[unsafe(no_mangle)]
pub extern "C" fn opc_drop_override(pkg: &mut [u8], name: &[u8]) -> Reply
    ensures { Replied (Call.Changes (Change.DropOverride name.now)) pkg.old result [] pkg.new }
{
    of_done(drop_override(pkg, name))
}

// The media type of a part: its Override's, else that of the Default of its extension.
#[unsafe(no_mangle)]
pub extern "C" fn opc_media_type(pkg: &[u8], name: &[u8], out: &mut [u8]) -> Reply
    ensures { Replied (Call.Prints (Print.MediaType name.now) out.old) pkg.now result out.new pkg.now }
{
    of_written(media_type(pkg, name, out))
}

// How the media type was arrived at: 2 by an Override, 1 by a Default, 0 by neither, and the length of its key.
#[unsafe(no_mangle)]
pub extern "C" fn opc_type_origin(pkg: &[u8], name: &[u8], out: &mut [u8]) -> Reply
    ensures { Replied (Call.TypeOrigin name.now out.old) pkg.now result out.new pkg.now }
{
    of_type_origin(type_origin(pkg, name, out))
}

// Any number may be given as the mode: 0 is internal, 1 external, others are refused.
#[unsafe(no_mangle)]
pub extern "C" fn opc_put_relationship(
    pkg: &mut [u8],
    source: &[u8],
    id: &[u8],
    kind: &[u8],
    mode: u64,
    target: &[u8],
) -> Reply
    ensures { Replied (Call.Changes (Change.PutRelationship source.now id.now kind.now mode target.now)) pkg.old result [] pkg.new }
{
    of_done(put_relationship(pkg, source, id, kind, mode, target))
}

#[unsafe(no_mangle)]
pub extern "C" fn opc_drop_relationship(pkg: &mut [u8], source: &[u8], id: &[u8]) -> Reply
    ensures { Replied (Call.Changes (Change.DropRelationship source.now id.now)) pkg.old result [] pkg.new }
{
    of_done(drop_relationship(pkg, source, id))
}

// The length of the IRI that a relationship leads to, its mode, and 1 if the part is held.
#[unsafe(no_mangle)]
pub extern "C" fn opc_resolve_relationship(
    pkg: &[u8],
    source: &[u8],
    id: &[u8],
    base: &[u8],
    out: &mut [u8],
) -> Reply
    ensures { Replied (Call.Prints (Print.ResolveRelationship source.now id.now base.now) out.old) pkg.now result out.new pkg.now }
{
    of_resolution(resolve_relationship(pkg, source, id, base, out))
}
