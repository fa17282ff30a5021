// The totals.
ghost use Rattle.model.specs.Calls.{Call, Look};
ghost use Rattle.contract.specs.Answers.{of_totals};
ghost use Rattle.contract.specs.Ran.{Ran};

use crate::positions::walk;
use contract::answers::Totals;
use contract::gate::check_package;
use contract::search::item_count;
use output::refusals::Refusal;
use store::header::used;

// How many items are held, how many groups are a part, the charge. There are no more parts than items, so the walk goes to the end.
pub fn totals(pkg: &[u8]) -> Result<Totals, Refusal>
    ensures { Ran (Call.Looks Look.Totals) pkg.now (of_totals result) pkg.now }
{
    check_package(pkg)?;
    let n = item_count(pkg);
    let all = walk(pkg, n, n as u64);
    Ok(Totals {
        items: n,
        parts: all.passed,
        charge: used(pkg),
    })
}
