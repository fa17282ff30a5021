// The entries of a package by position.
ghost use Rattle.abi.specs.Replies.{EntryReplied};

use crate::replies::{Reply, of_entry_field};
use entries::listing::entry_at;

// A field of the entry at a position of a set: its length, and how many entries the set has. It is no call of document 01.
#[unsafe(no_mangle)]
pub extern "C" fn opc_entry_at(
    pkg: &[u8],
    set: u64,
    position: u64,
    field: u64,
    out: &mut [u8],
) -> Reply
    ensures { EntryReplied set position field out.old pkg.now result out.new }
{
    of_entry_field(entry_at(pkg, set, position, field, out))
}
