// The calls on a package in one lent buffer.
ghost use Rattle.std.specs.Prelude.{[]};
ghost use Rattle.model.specs.Calls.{Call, Look, Change, Print};
ghost use Rattle.abi.specs.Replies.{Replied, ViewReply};

use crate::replies::{Reply, of_cut, of_done, of_found, of_span, of_totals, of_written};
use items::calls::{drop_item, find_item, put_item, start};
use items::places::view_place;
use parts::positions::part_at;
use parts::reading::read_part;
use parts::totals::totals;
use pieces::cutting::cut_part;
use pieces::joining::join_part;

// Makes an empty package of the buffer.
#[unsafe(no_mangle)]
pub extern "C" fn opc_start(pkg: &mut [u8], capacity: u64) -> Reply
    ensures { Replied (Call.Start capacity) pkg.old result [] pkg.new }
{
    of_done(start(pkg, capacity))
}

#[unsafe(no_mangle)]
pub extern "C" fn opc_put_item(pkg: &mut [u8], name: &[u8], bytes: &[u8]) -> Reply
    ensures { Replied (Call.Changes (Change.PutItem name.now bytes.now)) pkg.old result [] pkg.new }
{
    of_done(put_item(pkg, name, bytes))
}

#[unsafe(no_mangle)]
pub extern "C" fn opc_drop_item(pkg: &mut [u8], name: &[u8]) -> Reply
    ensures { Replied (Call.Changes (Change.DropItem name.now)) pkg.old result [] pkg.new }
{
    of_done(drop_item(pkg, name))
}

// The length of an item.
#[unsafe(no_mangle)]
pub extern "C" fn opc_find_item(pkg: &[u8], name: &[u8]) -> Reply
    ensures { Replied (Call.Looks (Look.Find name.now)) pkg.now result [] pkg.now }
{
    of_found(find_item(pkg, name))
}

// An export returns no part of a slice: the two values are where it begins in the package, and its length.
#[unsafe(no_mangle)]
pub extern "C" fn opc_view_item(pkg: &[u8], name: &[u8]) -> Reply
    ensures { ViewReply name.now pkg.now result }
{
    of_span(view_place(pkg, name))
}

// The content of a part from an offset on, as much as the output takes.
#[unsafe(no_mangle)]
pub extern "C" fn opc_read_part(pkg: &[u8], name: &[u8], offset: u64, out: &mut [u8]) -> Reply
    ensures { Replied (Call.Prints (Print.ReadPart name.now offset) out.old) pkg.now result out.new pkg.now }
{
    of_written(read_part(pkg, name, offset, out))
}

// The spelling of the part at a position in folded order.
#[unsafe(no_mangle)]
pub extern "C" fn opc_part_at(pkg: &[u8], position: u64, out: &mut [u8]) -> Reply
    ensures { Replied (Call.Prints (Print.PartAt position) out.old) pkg.now result out.new pkg.now }
{
    of_written(part_at(pkg, position, out))
}

// How many items are held, how many groups are a part, the charge.
#[unsafe(no_mangle)]
pub extern "C" fn opc_totals(pkg: &[u8]) -> Reply
    ensures { Replied (Call.Looks Look.Totals) pkg.now result [] pkg.now }
{
    of_totals(totals(pkg))
}

// Cuts a whole part into so many pieces: how many bytes each has, and how many of the first have one more.
#[unsafe(no_mangle)]
pub extern "C" fn opc_cut_part(pkg: &mut [u8], name: &[u8], pieces: u64) -> Reply
    ensures { Replied (Call.CutPart name.now pieces) pkg.old result [] pkg.new }
{
    of_cut(cut_part(pkg, name, pieces))
}

// Makes one whole item of a part that is in pieces.
#[unsafe(no_mangle)]
pub extern "C" fn opc_join_part(pkg: &mut [u8], name: &[u8]) -> Reply
    ensures { Replied (Call.Changes (Change.JoinPart name.now)) pkg.old result [] pkg.new }
{
    of_done(join_part(pkg, name))
}
