// The listing of the parts: one walk over the items, group by group.
ghost use Rattle.std.specs.Prelude.{◌≤◌, ◌<◌, length};
ghost use Rattle.chars.specs.FoldedNames.{folded_size};
ghost use Rattle.store.specs.Layout.{slot_count};
ghost use Rattle.store.specs.Packages.{Shape};
ghost use Rattle.commands.specs.Listings.{ShortField, TypeText, PartSent, GroupSent, ListingSent};

use base::numbers::smaller;
use chars::folded::fold_into;
use contract::search::item_count;
use lines::printing::put_part_line;
use parts::reading::content_length;
use parts::runs::{makes_part, own_end};
use store::header::count;
use store::rows::field;
use types::media::type_row;

// Field j of row i; no bytes where it has more than `most`.
fn short_field(pkg: &[u8], i: usize, j: usize, most: usize) -> &[u8]
    ensures { ShortField pkg.now i j most result.now }
{
    let s = field(pkg, i, j);
    if most < s.len() {
        return &pkg[0..0];
    }
    s
}

// The media type of a name; no bytes where it has none.
fn type_of<'a>(pkg: &'a [u8], name: &[u8]) -> &'a [u8]
    requires { Shape pkg.now × (length name.now ≤ folded_size) }
    ensures { TypeText pkg.now name.now result.now }
{
    let mut f = [0; 256];
    fold_into(&mut f, name);
    let r = type_row(pkg, &f, name);
    if r < count(pkg) {
        return short_field(pkg, r, 1, 127);
    }
    &pkg[0..0]
}

// The line of the part in these rows. How many bytes it has.
fn put_part(pkg: &[u8], from: usize, to: usize, out: &mut [u8]) -> usize
    requires shape { Shape pkg.now }
    requires from_lt_to { (from < to) × (to ≤ slot_count) }
    ensures { PartSent pkg.now from to out.old result out.new }
{
    let name = short_field(pkg, from, 0, 255);
    let kind = type_of(pkg, name);
    let bytes = content_length(pkg, from, to);
    put_part_line(to - from, bytes, name, kind, out)
}

// The line of the group in these rows at place `at` of the output, if the group is a part. The place behind it.
fn put_group(pkg: &[u8], from: usize, to: usize, out: &mut [u8], at: usize) -> usize
    requires shape { Shape pkg.now }
    requires from_lt_to { (from < to) × (to ≤ slot_count) × (at ≤ 1000000) }
    ensures { GroupSent pkg.now from to out.old at result out.new }
{
    if !makes_part(pkg, from, to) {
        return at;
    }
    let k = smaller(at, out.len());
    at + put_part(pkg, from, to, &mut out[k..])
}

// The lines of all parts. How many bytes they have.
pub(crate) fn put_listing(pkg: &[u8], out: &mut [u8]) -> usize
    requires { Shape pkg.now }
    ensures { ListingSent pkg.now out.old result out.new }
{
    let n = item_count(pkg);
    let mut row = 0;
    let mut at = 0;
    while row < n {
        let end = own_end(pkg, row, n);
        at = put_group(pkg, row, end, out, at);
        row = end;
    }
    at
}
