// A field of the entry at a position of a set, for a caller who lists all that a package holds. It is no call of document 01.
ghost use Rattle.std.specs.Prelude.{◌≡◌, [], ◌∷◌, ◌++◌, ◌^◌, ◌<◌, length};
ghost use Rattle.output.specs.Answers.{Text, filled};
ghost use Rattle.store.specs.Layout.{count_of};
ghost use Rattle.entries.specs.Listing.{field_count};
ghost use Rattle.entries.specs.Promise.{of_entry_field, EntryRan};
ghost use Rattle.entries.specs.RowTexts.{row_field, RowCopied};

use base::moves::copy_in;
use contract::EXTERNAL_TAG;
use contract::gate::check_package;
use contract::search::set_start;
use output::refusals::{Refusal, Unwritten};
use store::rows::{field, tag};

// The answer: the field's length, and how many entries the set has.
#[derive(Clone, Copy)]
pub struct EntryField {
    pub length: usize,
    pub entries: usize,
}

// How many fields the entries of a set have: none where there is no such set.
fn field_count(set: u64) -> u64
    ensures { result ≡ field_count set }
{
    if set < 3 {
        return 2;
    }
    if set == 3 {
        return 5;
    }
    0
}

// The field of a row in which the field k of an entry lies: the bytes of an item are the third, and a relationship's mode is none.
fn row_field(set: u64, k: u64) -> usize
    ensures { result ≡ row_field set k }
{
    if set == 0 {
        return 2;
    }
    if k == 4 {
        return 3;
    }
    k as usize
}

// Copies two texts, one behind the other, as the field of an entry of a set that has n entries.
fn put_field(a: &[u8], b: &[u8], n: usize, out: &mut [u8]) -> Result<EntryField, Unwritten>
    requires { (length a.now < 2 ^ 32) × (length b.now < 2 ^ 32) }
    ensures { of_entry_field result out.new ≡ filled 2 out.old (Text (a.now ++ b.now) (n ∷ [])) }
{
    let length = a.len() + b.len();
    if out.len() < length {
        return Err(Unwritten::TooShort(length));
    }
    copy_in(out, 0, a);
    copy_in(out, a.len(), b);
    Ok(EntryField { length, entries: n })
}

// Copies the field k of the entry in row r. An item's name lies in two fields, and the tag tells a relationship's mode.
fn put_row_field(
    pkg: &[u8],
    r: usize,
    set: u64,
    k: u64,
    n: usize,
    out: &mut [u8],
) -> Result<EntryField, Unwritten>
    requires { (r < count_of pkg.now) × (k < field_count set) }
    ensures { RowCopied pkg.now r set k n out.old (of_entry_field result out.new) }
{
    if (set == 0) & (k == 0) {
        return put_field(field(pkg, r, 0), field(pkg, r, 1), n, out);
    }
    if (set == 3) & (k == 3) {
        if tag(pkg, r) == EXTERNAL_TAG {
            return put_field(b"\x01", b"", n, out);
        }
        return put_field(b"\x00", b"", n, out);
    }
    put_field(field(pkg, r, row_field(set, k)), b"", n, out)
}

// Copies the field k of the entry at a position of a set, in the order of its keys.
pub fn entry_at(
    pkg: &[u8],
    set: u64,
    position: u64,
    k: u64,
    out: &mut [u8],
) -> Result<EntryField, Unwritten>
    ensures { EntryRan set position k out.old pkg.now (of_entry_field result out.new) }
{
    check_package(pkg)?;
    if field_count(set) <= k {
        return Err(Unwritten::Refused(Refusal::BadRelationshipField));
    }
    let s = set as usize;
    let from = set_start(pkg, s);
    let to = set_start(pkg, s + 1);
    if to as u64 <= position {
        return Err(Unwritten::Refused(Refusal::NotHeld));
    }
    let r = from + position as usize;
    if to <= r {
        return Err(Unwritten::Refused(Refusal::NotHeld));
    }
    put_row_field(pkg, r, set, k, to - from, out)
}
