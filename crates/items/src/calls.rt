// The calls on items. `&s[..]` for `s`: docs/DECISIONS.md, Slices handed on.
ghost use Rattle.model.specs.Calls.{Call, Look, Change};
ghost use Rattle.contract.specs.Answers.{of_done, of_found, of_view};
ghost use Rattle.contract.specs.Ran.{Ran};

use crate::clashes::check_fit;
use crate::wanted::{asked, item_row, strict};
use chars::folded::fold_into;
use contract::entries::put_at;
use contract::gate::check_package;
use contract::search::{SearchKey, item_count, seek};
use contract::{CAPACITY_LIMIT, ITEM_LIMIT, ITEMS, OVERHEAD};
use output::refusals::Refusal;
use store::header::{count, init};
use store::rows::{field, remove};

// Makes an empty package of the buffer.
pub fn start(pkg: &mut [u8], capacity: u64) -> Result<(), Refusal>
    ensures { Ran (Call.Start capacity) pkg.old (of_done result) pkg.new }
{
    if CAPACITY_LIMIT < capacity {
        return Err(Refusal::BadStart);
    }
    let c = capacity as usize;
    if pkg.len() < c + OVERHEAD {
        return Err(Refusal::BadStart);
    }
    init(pkg, c);
    Ok(())
}

pub fn put_item(pkg: &mut [u8], name: &[u8], bytes: &[u8]) -> Result<(), Refusal>
    ensures { Ran (Call.Changes (Change.PutItem name.now bytes.now)) pkg.old (of_done result) pkg.new }
{
    check_package(pkg)?;
    let wanted = strict(name)?;
    let n = wanted.prefix;
    let t = wanted.tag;
    let mut f = [0; 256];
    fold_into(&mut f, &name[..n]);
    let w = SearchKey {
        set: ITEMS,
        at: 0,
        length: n,
        tag: t,
    };
    let place = seek(pkg, w, &f, b"");
    let r = place.row;
    let own = check_fit(pkg, &f, name, n, t, r, item_count(pkg));
    put_at(
        pkg,
        r,
        place.held,
        own,
        ITEMS,
        ITEM_LIMIT,
        t,
        &name[..n],
        &name[n..],
        bytes,
        b"",
    )
}

pub fn drop_item(pkg: &mut [u8], name: &[u8]) -> Result<(), Refusal>
    ensures { Ran (Call.Changes (Change.DropItem name.now)) pkg.old (of_done result) pkg.new }
{
    check_package(pkg)?;
    let wanted = strict(name)?;
    let r = item_row(pkg, name, wanted.prefix, wanted.tag);
    if r < count(pkg) {
        remove(pkg, r);
        return Ok(());
    }
    Err(Refusal::NotHeld)
}

// The length of an item.
pub fn find_item(pkg: &[u8], name: &[u8]) -> Result<usize, Refusal>
    ensures { Ran (Call.Looks (Look.Find name.now)) pkg.now (of_found result) pkg.now }
{
    check_package(pkg)?;
    let wanted = asked(name)?;
    let r = item_row(&pkg[..], name, wanted.prefix, wanted.tag);
    if count(pkg) <= r {
        return Err(Refusal::NotHeld);
    }
    Ok(field(pkg, r, 2).len())
}

// The part of the package that holds an item's bytes; an empty part where it is refused.
pub fn view_item<'a>(pkg: &'a [u8], name: &[u8]) -> &'a [u8]
    ensures { Ran (Call.Looks (Look.View name.now)) pkg.now (of_view result.now) pkg.now }
{
    if check_package(pkg).is_err() {
        return &pkg[0..0];
    }
    let Ok(wanted) = asked(name) else {
        return &pkg[0..0];
    };
    let r = item_row(&pkg[..], name, wanted.prefix, wanted.tag);
    if r < count(pkg) {
        return field(pkg, r, 2);
    }
    &pkg[0..0]
}
