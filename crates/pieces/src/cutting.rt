// Cutting a part into pieces.
ghost use Rattle.std.specs.Prelude.{◌^◌, ◌≤◌, ◌<◌};
ghost use Rattle.model.specs.Calls.{Call};
ghost use Rattle.store.specs.Layout.{slot_count};
ghost use Rattle.store.specs.Packages.{Shape};
ghost use Rattle.output.specs.Refusals.{number_of};
ghost use Rattle.contract.specs.Answers.{of_cut};
ghost use Rattle.contract.specs.Ran.{Ran};
ghost use Rattle.pieces.specs.Cuts.{CutRoom, CutRefused, CutRow};

use crate::splitting::{split, suffixes_length};
use base::moves::copy_in;
use base::numbers::smaller;
use chars::folded::fold_into;
use contract::ITEM_LIMIT;
use contract::answers::Cut;
use contract::gate::check_package;
use contract::search::item_count;
use names::parts::is_part_name;
use output::refusals::Refusal;
use parts::runs::{find_group, makes_part};
use store::header::free;
use store::rows::{field, tag};

// How many bytes a prefix has at most.
const PREFIX_SIZE: usize = 255;

// How many pieces a part may be cut into.
const PIECE_LIMIT: u64 = 256;

// Whether a package has room for n pieces in the place of an item with a prefix of p bytes: for their number, and for their names.
fn has_cut_room(pkg: &[u8], p: usize, n: usize) -> bool
    requires { Shape pkg.now × (p < 2 ^ 32) × (0 < n) × (n ≤ 256) }
    ensures { CutRoom pkg.now p n result }
{
    if ITEM_LIMIT + 1 < item_count(pkg) + n {
        return false;
    }
    (n - 1) * p + suffixes_length(n) <= free(pkg)
}

// Judges a cut of the group in these rows into n pieces: 13, 18, 17, 15.
fn check_cut(pkg: &[u8], from: usize, to: usize, n: u64) -> Result<(), Refusal>
    requires { Shape pkg.now × (to ≤ slot_count) }
    ensures { CutRefused pkg.now from to n (number_of result) }
{
    if !makes_part(pkg, from, to) {
        return Err(Refusal::NotHeld);
    }
    if tag(pkg, from) != 0 {
        return Err(Refusal::WrongForm);
    }
    if n < 1 {
        return Err(Refusal::BadPieceCount);
    }
    if PIECE_LIMIT < n {
        return Err(Refusal::BadPieceCount);
    }
    if has_cut_room(pkg, field(pkg, from, 0).len(), n as usize) {
        return Ok(());
    }
    Err(Refusal::Full)
}

// Splits the whole item of row r into n pieces. Its prefix is kept beside the package meanwhile.
fn cut_row(pkg: &mut [u8], r: usize, n: usize) -> Cut
    requires { (0 < n) × (n ≤ 256) }
    ensures { CutRow pkg.old pkg.new r n result }
{
    let size = field(pkg, r, 2).len();
    let cut = Cut {
        size: size / n,
        rest: size % n,
    };
    let held = field(pkg, r, 0);
    let p = smaller(held.len(), PREFIX_SIZE);
    let mut prefix = [0; PREFIX_SIZE];
    copy_in(&mut prefix, 0, &held[..p]);
    if p == 0 {
        return cut;
    }
    split(pkg, r, &prefix[..p], n, cut.size, cut.rest);
    cut
}

// Cuts a whole part into n pieces: how many bytes each has, and how many of the first have one more.
pub fn cut_part(pkg: &mut [u8], name: &[u8], n: u64) -> Result<Cut, Refusal>
    ensures { Ran (Call.CutPart name.now n) pkg.old (of_cut result) pkg.new }
{
    check_package(pkg)?;
    if !is_part_name(name) {
        return Err(Refusal::NotAPartName);
    }
    let mut f = [0; 256];
    fold_into(&mut f, name);
    let group = find_group(pkg, &f, name);
    let r = group.from;
    let to = group.to;
    check_cut(pkg, r, to, n)?;
    Ok(cut_row(pkg, r, n as usize))
}
