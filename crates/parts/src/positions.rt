// The parts in folded order: a walk over them, and the part at a position.
ghost use Rattle.std.specs.Prelude.{◌≡◌, cond, ◌≤◌};
ghost use Rattle.output.specs.Answers.{of_written};
ghost use Rattle.model.specs.Calls.{Call, Print};
ghost use Rattle.store.specs.Layout.{slot_count};
ghost use Rattle.store.specs.Packages.{Shape};
ghost use Rattle.contract.specs.Ran.{Ran};
ghost use Rattle.parts.specs.Walks.{Walked};

use crate::runs::{makes_part, own_end};
use contract::gate::check_package;
use contract::search::item_count;
use output::refusals::{Refusal, Unwritten};
use output::writing::put_text;
use store::rows::field;

// Where a walk over the parts has come to, and how many it has passed.
#[derive(Drop)]
pub struct Stop {
    pub row: usize,
    pub passed: usize,
}

fn one_if(b: bool) -> usize
    ensures { (result ≡ cond b 1 0) × (result ≤ 1) }
{
    if b {
        return 1;
    }
    0
}

// Walks over n items, group by group, to the first row of the part at the position, or to the end.
pub(crate) fn walk(pkg: &[u8], n: usize, position: u64) -> Stop
    requires { Shape pkg.now × (n ≤ slot_count) }
    ensures { Walked pkg.now n position result.row result.passed }
{
    let mut row = 0;
    let mut passed = 0;
    while row < n {
        let end = own_end(pkg, row, n);
        let part = makes_part(pkg, row, end);
        if part & (passed as u64 == position) {
            return Stop { row, passed };
        }
        passed += one_if(part);
        row = end;
    }
    Stop { row, passed }
}

// The spelling of the part at a position.
pub fn part_at(pkg: &[u8], position: u64, out: &mut [u8]) -> Result<usize, Unwritten>
    ensures { Ran (Call.Prints (Print.PartAt position) out.old) pkg.now (of_written result out.new) pkg.now }
{
    check_package(pkg)?;
    let n = item_count(pkg);
    let stop = walk(pkg, n, position);
    let row = stop.row;
    if n <= row {
        return Err(Unwritten::Refused(Refusal::NotHeld));
    }
    put_text(field(pkg, row, 0), out)
}
