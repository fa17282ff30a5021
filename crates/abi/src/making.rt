// The calls of a script, each made through the exported function.
ghost use Rattle.std.specs.Prelude.{◌≡◌, ◌++◌, ◌≤◌, length, take, drop};
ghost use Rattle.model.specs.Calls.{Call, Look};
ghost use Rattle.script.specs.Calls.{last_code, coded};
ghost use Rattle.abi.specs.Turns.{Told, Unlent};

use crate::calls::{
    opc_cut_part, opc_drop_item, opc_find_item, opc_join_part, opc_part_at, opc_put_item,
    opc_read_part, opc_start, opc_totals, opc_view_item,
};
use crate::fields::{
    opc_drop_default, opc_drop_override, opc_drop_relationship, opc_media_type, opc_put_default,
    opc_put_override, opc_put_relationship, opc_resolve_relationship, opc_type_origin,
};
use crate::replies::{Reply, one};
use crate::xml::{
    opc_read_relationships, opc_read_types, opc_write_relationships, opc_write_types,
};
use base::moves::copy_in;
use base::numbers::smaller;

// Copies as much of a text as the output takes.
fn copy_some(text: &[u8], out: &mut [u8])
    ensures { out.new ≡ take (length out.old) text.now ++ drop (length text.now) out.old }
{
    let n = smaller(text.len(), out.len());
    copy_in(out, 0, &text[..n]);
}

// A view's part is copied to the output.
fn make_view(pkg: &[u8], name: &[u8], out: &mut [u8]) -> Reply
    ensures { Told (Call.Looks (Look.View name.now)) pkg.now out.old result out.new pkg.now }
{
    let view = opc_view_item(pkg, name);
    let a = view.first as usize;
    let n = view.second as usize;
    let e = a + n;
    copy_some(&pkg[a..e], out);
    one(0, n)
}

// The codes 1 to 3: a start, and the changes of items.
fn make_item_change(
    pkg: &mut [u8],
    code: usize,
    n: u64,
    a: &[u8],
    b: &[u8],
    c: &[u8],
    d: &[u8],
) -> Reply
    requires { (1 ≤ code) × (code ≤ 3) }
    ensures { Unlent (coded code n a.now b.now c.now d.now) pkg.old result pkg.new }
{
    if code == 1 {
        return opc_start(pkg, n);
    }
    if code == 2 {
        return opc_put_item(pkg, a, b);
    }
    opc_drop_item(pkg, a)
}

// The codes 4 to 9: the changes of Defaults, Overrides and relationships.
fn make_field_change(
    pkg: &mut [u8],
    code: usize,
    n: u64,
    a: &[u8],
    b: &[u8],
    c: &[u8],
    d: &[u8],
) -> Reply
    requires { (4 ≤ code) × (code ≤ 9) }
    ensures { Unlent (coded code n a.now b.now c.now d.now) pkg.old result pkg.new }
{
    if code == 4 {
        return opc_put_default(pkg, a, b);
    }
    if code == 5 {
        return opc_drop_default(pkg, a);
    }
    if code == 6 {
        return opc_put_override(pkg, a, b);
    }
    if code == 7 {
        return opc_drop_override(pkg, a);
    }
    if code == 8 {
        return opc_put_relationship(pkg, a, b, c, n, d);
    }
    opc_drop_relationship(pkg, a, b)
}

// The codes 10 to 12: the calls that only look.
fn make_look(
    pkg: &[u8],
    code: usize,
    n: u64,
    a: &[u8],
    b: &[u8],
    c: &[u8],
    d: &[u8],
    out: &mut [u8],
) -> Reply
    requires { (10 ≤ code) × (code ≤ 12) }
    ensures { Told (coded code n a.now b.now c.now d.now out.old) pkg.now out.old result out.new pkg.now }
{
    if code == 10 {
        return opc_find_item(pkg, a);
    }
    if code == 11 {
        return make_view(pkg, a, out);
    }
    opc_totals(pkg)
}

// The codes 13 to 18: the calls that write.
fn make_print(
    pkg: &[u8],
    code: usize,
    n: u64,
    a: &[u8],
    b: &[u8],
    c: &[u8],
    d: &[u8],
    out: &mut [u8],
) -> Reply
    requires { (13 ≤ code) × (code ≤ 18) }
    ensures { Told (coded code n a.now b.now c.now d.now out.old) pkg.now out.old result out.new pkg.now }
{
    if code == 13 {
        return opc_read_part(pkg, a, n, out);
    }
    if code == 14 {
        return opc_media_type(pkg, a, out);
    }
    if code == 15 {
        return opc_part_at(pkg, n, out);
    }
    if code == 16 {
        return opc_resolve_relationship(pkg, a, b, c, out);
    }
    if code == 17 {
        return opc_write_types(pkg, out);
    }
    opc_write_relationships(pkg, a, out)
}

// The codes 19 and 20: the changes of parts.
fn make_part_change(
    pkg: &mut [u8],
    code: usize,
    n: u64,
    a: &[u8],
    b: &[u8],
    c: &[u8],
    d: &[u8],
) -> Reply
    requires { (19 ≤ code) × (code ≤ 20) }
    ensures { Unlent (coded code n a.now b.now c.now d.now) pkg.old result pkg.new }
{
    if code == 19 {
        return opc_cut_part(pkg, a, n);
    }
    opc_join_part(pkg, a)
}

// The codes 22 and 23: the calls that read a stream.
fn make_reading(
    pkg: &mut [u8],
    code: usize,
    n: u64,
    a: &[u8],
    b: &[u8],
    c: &[u8],
    d: &[u8],
) -> Reply
    requires { (22 ≤ code) × (code ≤ 23) }
    ensures { Unlent (coded code n a.now b.now c.now d.now) pkg.old result pkg.new }
{
    if code == 22 {
        return opc_read_types(pkg, a);
    }
    opc_read_relationships(pkg, a, b)
}

// The call with this code.
pub(crate) fn make(
    pkg: &mut [u8],
    code: usize,
    n: u64,
    a: &[u8],
    b: &[u8],
    c: &[u8],
    d: &[u8],
    out: &mut [u8],
) -> Reply
    requires { (1 ≤ code) × (code ≤ last_code) }
    ensures { Told (coded code n a.now b.now c.now d.now out.old) pkg.old out.old result out.new pkg.new }
{
    if code <= 3 {
        return make_item_change(pkg, code, n, a, b, c, d);
    }
    if code <= 9 {
        return make_field_change(pkg, code, n, a, b, c, d);
    }
    if code <= 12 {
        return make_look(pkg, code, n, a, b, c, d, out);
    }
    if code <= 18 {
        return make_print(pkg, code, n, a, b, c, d, out);
    }
    if code <= 20 {
        return make_part_change(pkg, code, n, a, b, c, d);
    }
    if code == 21 {
        return opc_type_origin(pkg, a, out);
    }
    make_reading(pkg, code, n, a, b, c, d)
}
