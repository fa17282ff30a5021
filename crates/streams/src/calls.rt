// The calls that write a stream. Rows stand in the order of their keys, so what is listed is a run of them, found by its ends.
ghost use Rattle.output.specs.Answers.{of_written};
ghost use Rattle.model.specs.Calls.{Call, Print};
ghost use Rattle.contract.specs.Ran.{Ran};

use crate::listing::write_stream;
use chars::folded::fold_into;
use contract::gate::check_package;
use contract::search::{SearchKey, seek, set_start};
use contract::{DEFAULTS, RELATIONSHIPS};
use output::refusals::Unwritten;
use targets::targets::check_source;

// The Defaults, then the Overrides: the sets before the relationships.
pub fn write_types(pkg: &[u8], out: &mut [u8]) -> Result<usize, Unwritten>
    ensures { Ran (Call.Prints Print.WriteTypes out.old) pkg.now (of_written result out.new) pkg.now }
{
    check_package(pkg)?;
    let from = set_start(pkg, DEFAULTS);
    let to = set_start(pkg, RELATIONSHIPS);
    write_stream(
        pkg,
        from,
        to,
        b"<Types xmlns=\"http://schemas.openxmlformats.org/package/2006/content-types\">\n",
        b"</Types>\n",
        out,
    )
}

// The relationships of a source, by id: every id is before `~`.
pub fn write_relationships(pkg: &[u8], source: &[u8], out: &mut [u8]) -> Result<usize, Unwritten>
    ensures { Ran (Call.Prints (Print.WriteRelationships source.now) out.old) pkg.now (of_written result out.new) pkg.now }
{
    check_package(pkg)?;
    check_source(source)?;
    let mut f = [0; 256];
    fold_into(&mut f, source);
    let w = SearchKey {
        set: RELATIONSHIPS,
        at: 0,
        length: source.len(),
        tag: 0,
    };
    let first = seek(pkg, w, &f, b"");
    let past = seek(pkg, w, &f, b"~");
    let from = first.row;
    let to = past.row;
    write_stream(
        pkg,
        from,
        to,
        b"<Relationships xmlns=\"http://schemas.openxmlformats.org/package/2006/relationships\">\n",
        b"</Relationships>\n",
        out,
    )
}
