// The media type of a part.
ghost use Rattle.output.specs.Answers.{of_written};
ghost use Rattle.chars.specs.FoldedNames.{HoldsFolding};
ghost use Rattle.model.specs.Calls.{Call, Print};
ghost use Rattle.store.specs.Packages.{Shape};
ghost use Rattle.contract.specs.Ran.{Ran};
ghost use Rattle.types.specs.TypeRows.{Typed, TypeFound};

use chars::folded::fold_into;
use contract::entries::locate;
use contract::gate::check_package;
use contract::search::SearchKey;
use contract::{DEFAULTS, OVERRIDES};
use names::parts::{extension_at, is_part_name};
use output::refusals::{Refusal, Unwritten};
use output::writing::put_text;
use parts::runs::is_part;
use store::header::count;
use store::rows::field;

// The row of a name's Override, else that of the Default of its extension; the number of rows if it has neither.
pub fn type_row(pkg: &[u8], f: &[u8; 256], name: &[u8]) -> usize
    requires shape { Shape pkg.now }
    requires holds_folding { HoldsFolding f.now name.now }
    ensures { Typed pkg.now name.now result }
{
    let m = count(pkg);
    let n = name.len();
    let w = SearchKey {
        set: OVERRIDES,
        at: 0,
        length: n,
        tag: 0,
    };
    let r = locate(pkg, w, f, b"");
    if r < m {
        return r;
    }
    let i = extension_at(name);
    if i == 0 {
        return m;
    }
    let w = SearchKey {
        set: DEFAULTS,
        at: i,
        length: n - i,
        tag: 0,
    };
    locate(pkg, w, f, b"")
}

// The row of the entry that gives a part its media type, the number of rows where there is none.
pub(crate) fn find_type(pkg: &[u8], name: &[u8]) -> Result<usize, Refusal>
    requires { Shape pkg.now }
    ensures { TypeFound pkg.now name.now result }
{
    if !is_part_name(name) {
        return Err(Refusal::NotAPartName);
    }
    let mut f = [0; 256];
    fold_into(&mut f, name);
    if !is_part(pkg, &f, name) {
        return Err(Refusal::NotHeld);
    }
    Ok(type_row(pkg, &f, name))
}

// The media type of a part: its Override's, else that of the Default of its extension.
pub fn media_type(pkg: &[u8], name: &[u8], out: &mut [u8]) -> Result<usize, Unwritten>
    ensures { Ran (Call.Prints (Print.MediaType name.now) out.old) pkg.now (of_written result out.new) pkg.now }
{
    check_package(pkg)?;
    let r = find_type(pkg, name)?;
    if r < count(pkg) {
        return put_text(field(pkg, r, 1), out);
    }
    Err(Unwritten::Refused(Refusal::NoMediaType))
}
