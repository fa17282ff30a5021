// The rows of entries: found by their key, put in, taken out.
ghost use Rattle.std.specs.Prelude.{◌≡◌, ◌+◌, ◌^◌, ◌≤◌, ◌<◌, leb, length};
ghost use Rattle.chars.specs.FoldedNames.{folded_size};
ghost use Rattle.model.specs.Calls.{Numbered};
ghost use Rattle.output.specs.Refusals.{number_of};
ghost use Rattle.store.specs.Rows.{make_row};
ghost use Rattle.store.specs.Packages.{Shape};
ghost use Rattle.contract.specs.Rows.{set_of, key_in};
ghost use Rattle.contract.specs.Searches.{sought_key, Aimed, Placed};
ghost use Rattle.contract.specs.Answers.{of_done};
ghost use Rattle.contract.specs.Entries.{Sought, Taken, RowsCounted, SetFull, Roomy, Weighed, Entered, Dropped};

use crate::search::{SearchKey, seek, set_of, set_start};
use chars::folded::fold_into;
use output::refusals::Refusal;
use store::SLOT_COUNT;
use store::header::{count, free};
use store::rows::{insert, remove};

// The row that has the key that is sought; the number of rows if there is none.
pub fn locate(pkg: &[u8], w: SearchKey, f: &[u8; 256], id: &[u8]) -> usize
    requires shape { Shape pkg.now }
    requires aimed { Aimed w f.now }
    ensures { Sought pkg.now (sought_key w f.now id.now) result }
{
    let place = seek(pkg, w, f, id);
    if place.held {
        return place.row;
    }
    count(pkg)
}

// Whether some row has the key that a row with this tag, this text and this id has.
pub fn is_held(pkg: &[u8], t: usize, text: &[u8], id: &[u8]) -> bool
    requires { Shape pkg.now × (length text.now ≤ folded_size) }
    ensures { Taken pkg.now (key_in (set_of t) text.now t id.now) result }
{
    let set = set_of(t);
    let mut f = [0; 256];
    fold_into(&mut f, text);
    let w = SearchKey {
        set,
        at: 0,
        length: text.len(),
        tag: t,
    };
    let place = seek(pkg, w, &f, id);
    place.held
}

// How many rows the set has.
pub fn row_count(pkg: &[u8], set: usize) -> usize
    requires { Shape pkg.now × (set ≤ 3) }
    ensures { RowsCounted pkg.now set result }
{
    let from = set_start(pkg, set);
    let to = set_start(pkg, set + 1);
    if to < from {
        return 0;
    }
    to - from
}

// Whether the set has as many rows as its limit. Mostly all sets together have fewer, and then its rows need not be counted.
fn is_full(pkg: &[u8], set: usize, limit: usize) -> bool
    requires { Shape pkg.now × (set ≤ 3) }
    ensures { SetFull pkg.now set limit result }
{
    if count(pkg) < limit {
        return false;
    }
    limit <= row_count(pkg, set)
}

// Whether four fields of these lengths fit into the room.
fn has_room(room: usize, a: usize, b: usize, c: usize, d: usize) -> bool
    ensures { result ≡ leb (a + (b + (c + d))) room }
{
    if room < a {
        return false;
    }
    let x = room - a;
    if x < b {
        return false;
    }
    let y = x - b;
    if y < c {
        return false;
    }
    d <= y - c
}

// Whether there is room for a row with four fields of these lengths: the set is not full, a slot is free, the bytes fit.
fn has_row_room(
    pkg: &[u8],
    set: usize,
    limit: usize,
    a: usize,
    b: usize,
    c: usize,
    d: usize,
) -> bool
    requires { Shape pkg.now × (set ≤ 3) }
    ensures { Roomy pkg.now set limit (a + (b + (c + d))) result }
{
    if is_full(pkg, set, limit) {
        return false;
    }
    if SLOT_COUNT <= count(pkg) {
        return false;
    }
    has_room(free(pkg), a, b, c, d)
}

// Judges a new row of a set, whose key is taken or not: 10, what the call's own test says, 15.
fn check_row(
    pkg: &[u8],
    taken: bool,
    own: Result<(), Refusal>,
    set: usize,
    limit: usize,
    t: usize,
    f0: &[u8],
    f1: &[u8],
    f2: &[u8],
    f3: &[u8],
) -> Result<(), Refusal>
    requires shape { Shape pkg.now × (set ≡ set_of t) }
    requires taken { Taken pkg.now (key_in set f0.now t f1.now) taken }
    requires numbered { Numbered (number_of own) }
    ensures { Weighed pkg.now (number_of own) limit (make_row t f0.now f1.now f2.now f3.now) (number_of result) }
{
    if taken {
        return Err(Refusal::Taken);
    }
    own?;
    if has_row_room(pkg, set, limit, f0.len(), f1.len(), f2.len(), f3.len()) {
        return Ok(());
    }
    Err(Refusal::Full)
}

// Puts in a row at its place r, unless its key is taken, the call's own test refuses it, or there is no room for it.
pub fn put_at(
    pkg: &mut [u8],
    r: usize,
    taken: bool,
    own: Result<(), Refusal>,
    set: usize,
    limit: usize,
    t: usize,
    f0: &[u8],
    f1: &[u8],
    f2: &[u8],
    f3: &[u8],
) -> Result<(), Refusal>
    requires shape { Shape pkg.old × (set ≡ set_of t) }
    requires placed { Placed pkg.old (key_in set f0.now t f1.now) r taken }
    requires numbered { Numbered (number_of own) }
    requires f0_nonzero { (0 < length f0.now) × (t < 2 ^ 32) }
    ensures { Entered pkg.old (number_of own) limit (make_row t f0.now f1.now f2.now f3.now) (of_done result) pkg.new }
{
    check_row(pkg, taken, own, set, limit, t, f0, f1, f2, f3)?;
    insert(pkg, r, t, f0, f1, f2, f3);
    Ok(())
}

// The same where the row's place is still to be found.
pub fn put_row(
    pkg: &mut [u8],
    own: Result<(), Refusal>,
    limit: usize,
    t: usize,
    f0: &[u8],
    f1: &[u8],
    f2: &[u8],
    f3: &[u8],
) -> Result<(), Refusal>
    requires shape { Shape pkg.old × (length f0.now ≤ folded_size) }
    requires numbered { Numbered (number_of own) }
    requires f0_nonzero { (0 < length f0.now) × (t < 2 ^ 32) }
    ensures { Entered pkg.old (number_of own) limit (make_row t f0.now f1.now f2.now f3.now) (of_done result) pkg.new }
{
    let set = set_of(t);
    let mut f = [0; 256];
    fold_into(&mut f, f0);
    let w = SearchKey {
        set,
        at: 0,
        length: f0.len(),
        tag: t,
    };
    let place = seek(pkg, w, &f, f1);
    let r = place.row;
    let taken = place.held;
    put_at(pkg, r, taken, own, set, limit, t, f0, f1, f2, f3)
}

// Takes out the row of a key.
pub fn drop_row(pkg: &mut [u8], set: usize, p: &[u8], id: &[u8]) -> Result<(), Refusal>
    requires { Shape pkg.old × (length p.now ≤ folded_size) }
    ensures { Dropped pkg.old (key_in set p.now 0 id.now) (of_done result) pkg.new }
{
    let mut f = [0; 256];
    fold_into(&mut f, p);
    let w = SearchKey {
        set,
        at: 0,
        length: p.len(),
        tag: 0,
    };
    let place = seek(pkg, w, &f, id);
    if place.held {
        remove(pkg, place.row);
        return Ok(());
    }
    Err(Refusal::NotHeld)
}
