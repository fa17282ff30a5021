// How the media type of a part was arrived at.
ghost use Rattle.std.specs.Prelude.{◌<◌};
ghost use Rattle.model.specs.Calls.{Call};
ghost use Rattle.store.specs.Layout.{count_of};
ghost use Rattle.store.specs.Packages.{Shape};
ghost use Rattle.contract.specs.Ran.{Ran};
ghost use Rattle.types.specs.TypeRows.{RowKeyed};
ghost use Rattle.types.specs.TypeOrigins.{of_type_origin};

use crate::media::find_type;
use base::moves::copy_in;
use contract::OVERRIDE_TAG;
use contract::gate::check_package;
use output::refusals::Unwritten;
use store::header::count;
use store::rows::{field, tag};

// The answer: the kind of the entry that gives the type, with the length of its key.
#[derive(Clone, Copy)]
pub enum TypeOrigin {
    Override(usize),
    Default(usize),
    Neither,
}

// The key of the entry in row r, an Override or a Default.
fn put_key(pkg: &[u8], r: usize, out: &mut [u8]) -> Result<TypeOrigin, Unwritten>
    requires { Shape pkg.now × (r < count_of pkg.now) }
    ensures { RowKeyed pkg.now r out.old (of_type_origin result out.new) }
{
    let key = field(pkg, r, 0);
    if out.len() < key.len() {
        return Err(Unwritten::TooShort(key.len()));
    }
    copy_in(out, 0, key);
    if tag(pkg, r) == OVERRIDE_TAG {
        return Ok(TypeOrigin::Override(key.len()));
    }
    Ok(TypeOrigin::Default(key.len()))
}

// The Override that gives a part its media type, else the Default of its extension, else neither: its key, as it was spelled.
pub fn type_origin(pkg: &[u8], name: &[u8], out: &mut [u8]) -> Result<TypeOrigin, Unwritten>
    ensures { Ran (Call.TypeOrigin name.now out.old) pkg.now (of_type_origin result out.new) pkg.now }
{
    check_package(pkg)?;
    let r = find_type(pkg, name)?;
    if r < count(pkg) {
        return put_key(pkg, r, out);
    }
    Ok(TypeOrigin::Neither)
}
