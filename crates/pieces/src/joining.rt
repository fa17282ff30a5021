// Joining the pieces of a part.
ghost use Rattle.std.specs.Prelude.{◌≤◌};
ghost use Rattle.model.specs.Calls.{Call, Change};
ghost use Rattle.store.specs.Layout.{slot_count};
ghost use Rattle.contract.specs.Answers.{of_done};
ghost use Rattle.contract.specs.Ran.{Ran};
ghost use Rattle.pieces.specs.Joins.{Merged};

use crate::rows::{absorb, rename};
use chars::folded::fold_into;
use contract::gate::check_package;
use names::parts::is_part_name;
use output::refusals::Refusal;
use parts::runs::{find_group, makes_part};
use store::rows::tag;

// Makes one whole item of the n pieces from row r on: piece 0 loses its suffix and takes up the others, one by one.
fn merge(pkg: &mut [u8], r: usize, n: usize)
    requires { (r ≤ slot_count) × (n ≤ slot_count) }
    ensures { Merged pkg.old pkg.new r n }
{
    rename(pkg, r, 0, b"");
    for _k in 1..n {
        absorb(pkg, r);
    }
}

// Joins the pieces of a part into one whole item in piece 0's spelling.
pub fn join_part(pkg: &mut [u8], name: &[u8]) -> Result<(), Refusal>
    ensures { Ran (Call.Changes (Change.JoinPart name.now)) pkg.old (of_done result) pkg.new }
{
    check_package(pkg)?;
    if !is_part_name(name) {
        return Err(Refusal::NotAPartName);
    }
    let mut f = [0; 256];
    fold_into(&mut f, name);
    let group = find_group(pkg, &f, name);
    let from = group.from;
    let to = group.to;
    if !makes_part(pkg, from, to) {
        return Err(Refusal::NotHeld);
    }
    if tag(pkg, from) == 0 {
        return Err(Refusal::WrongForm);
    }
    merge(pkg, from, to - from);
    Ok(())
}
