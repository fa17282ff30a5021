// Reading the content of a part.
ghost use Rattle.std.specs.Prelude.{◌≡◌, ◌-◌, ◌≤◌};
ghost use Rattle.output.specs.Answers.{of_written};
ghost use Rattle.model.specs.Calls.{Call, Print};
ghost use Rattle.store.specs.Layout.{slot_count};
ghost use Rattle.contract.specs.Ran.{Ran};
ghost use Rattle.parts.specs.Copies.{Copied, Measured};

use crate::copying::copy_rest;
use crate::runs::{find_group, makes_part};
use chars::folded::fold_into;
use contract::gate::check_package;
use names::parts::is_part_name;
use output::refusals::{Refusal, Unwritten};
use store::rows::field;

// What is still to be skipped behind n bytes.
fn skip_past(skip: u64, n: usize) -> u64
    ensures { result ≡ skip - n }
{
    if skip <= n as u64 {
        return 0;
    }
    skip - n as u64
}

// Copies the content of the items in these rows, one behind the other, from the offset on, until the output is full. How many bytes.
fn copy_content(pkg: &[u8], from: usize, to: usize, offset: u64, out: &mut [u8]) -> usize
    ensures { Copied pkg.now from to offset out.old result out.new }
{
    let mut at = 0;
    let mut skip = offset;
    for i in from..to {
        if out.len() <= at {
            return at;
        }
        let piece = field(pkg, i, 2);
        at = copy_rest(out, at, piece, skip);
        skip = skip_past(skip, piece.len());
    }
    at
}

// How many bytes the items in these rows hold together.
pub fn content_length(pkg: &[u8], from: usize, to: usize) -> usize
    requires { to ≤ slot_count }
    ensures { Measured pkg.now from to result }
{
    let mut n = 0;
    for i in from..to {
        n += field(pkg, i, 2).len();
    }
    n
}

// The content of a part from an offset on, as much as the output takes.
pub fn read_part(pkg: &[u8], name: &[u8], offset: u64, out: &mut [u8]) -> Result<usize, Unwritten>
    ensures { Ran (Call.Prints (Print.ReadPart name.now offset) out.old) pkg.now (of_written result out.new) pkg.now }
{
    check_package(pkg)?;
    if !is_part_name(name) {
        return Err(Unwritten::Refused(Refusal::NotAPartName));
    }
    let mut f = [0; 256];
    fold_into(&mut f, name);
    let group = find_group(pkg, &f, name);
    let from = group.from;
    let to = group.to;
    if !makes_part(pkg, from, to) {
        return Err(Unwritten::Refused(Refusal::NotHeld));
    }
    Ok(copy_content(pkg, from, to, offset, out))
}
