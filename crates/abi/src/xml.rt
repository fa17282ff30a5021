// The calls that write an XML stream, and those that read one.
ghost use Rattle.std.specs.Prelude.{[]};
ghost use Rattle.model.specs.Calls.{Call, Change, Print};
ghost use Rattle.abi.specs.Replies.{Replied};

use crate::replies::{Reply, of_done, of_written};
use reading::calls::{read_relationships, read_types};
use streams::calls::{write_relationships, write_types};

#[unsafe(no_mangle)]
pub extern "C" fn opc_write_types(pkg: &[u8], out: &mut [u8]) -> Reply
    ensures { Replied (Call.Prints Print.WriteTypes out.old) pkg.now result out.new pkg.now }
{
    of_written(write_types(pkg, out))
}

#[unsafe(no_mangle)]
pub extern "C" fn opc_write_relationships(pkg: &[u8], source: &[u8], out: &mut [u8]) -> Reply
    ensures { Replied (Call.Prints (Print.WriteRelationships source.now) out.old) pkg.now result out.new pkg.now }
{
    of_written(write_relationships(pkg, source, out))
}

// All entries of a types stream are put in, or none.
#[unsafe(no_mangle)]
pub extern "C" fn opc_read_types(pkg: &mut [u8], stream: &[u8]) -> Reply
    ensures { Replied (Call.Changes (Change.ReadTypes stream.now)) pkg.old result [] pkg.new }
{
    of_done(read_types(pkg, stream))
}

// All entries of a stream of relationships are put in as those of the source, or none.
#[unsafe(no_mangle)]
pub extern "C" fn opc_read_relationships(pkg: &mut [u8], source: &[u8], stream: &[u8]) -> Reply
    ensures { Replied (Call.Changes (Change.ReadRelationships source.now stream.now)) pkg.old result [] pkg.new }
{
    of_done(read_relationships(pkg, source, stream))
}
