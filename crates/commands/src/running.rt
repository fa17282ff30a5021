// One line, run on a package.
ghost use Rattle.std.specs.Prelude.{◌≡◌, ◌<◌, length, drop};
ghost use Rattle.model.specs.Calls.{Change};
ghost use Rattle.lines.specs.Reading.{field_to, field_after};
ghost use Rattle.commands.specs.Listings.{ListingSent};
ghost use Rattle.commands.specs.Running.{ChangeRun, LineRun};

use crate::listing::put_listing;
use contract::gate::check_package;
use items::calls::{drop_item, put_item};
use lines::parsing::{Command, parse};
use lines::printing::put_answer;
use output::refusals::{Refusal, number_of};
use types::calls::{put_default, put_override};

// The commands of two fields, the first one from place 2 to e, the other one behind the space at e. Each has its own change in its promise, which a
// closure that stood for the call would have to carry.
fn run_put(pkg: &mut [u8], line: &[u8], e: usize) -> u8
    requires { (2 < e) × (e < length line.now) }
    ensures { ChangeRun (Change.PutItem (field_to e line.now) (field_after e line.now)) pkg.old result pkg.new }
{
    let s = e + 1;
    number_of(put_item(pkg, &line[2..e], &line[s..]))
}

fn run_default(pkg: &mut [u8], line: &[u8], e: usize) -> u8
    requires { (2 < e) × (e < length line.now) }
    ensures { ChangeRun (Change.PutDefault (field_to e line.now) (field_after e line.now)) pkg.old result pkg.new }
{
    let s = e + 1;
    number_of(put_default(pkg, &line[2..e], &line[s..]))
}

fn run_override(pkg: &mut [u8], line: &[u8], e: usize) -> u8
    requires { (2 < e) × (e < length line.now) }
    ensures { ChangeRun (Change.PutOverride (field_to e line.now) (field_after e line.now)) pkg.old result pkg.new }
{
    let s = e + 1;
    number_of(put_override(pkg, &line[2..e], &line[s..]))
}

// The name stands from place 2 on.
fn run_drop(pkg: &mut [u8], line: &[u8]) -> u8
    requires { 2 < length line.now }
    ensures { ChangeRun (Change.DropItem (drop 2 line.now)) pkg.old result pkg.new }
{
    number_of(drop_item(pkg, &line[2..]))
}

fn run_list(pkg: &[u8], out: &mut [u8]) -> usize
    ensures { ListingSent pkg.now out.old result out.new }
{
    if let Err(r) = check_package(pkg) {
        return put_answer(r.number(), out);
    }
    put_listing(pkg, out)
}

// Runs the command of a line, and writes what it prints where all of that fits. How many bytes that is.
pub fn run_line(pkg: &mut [u8], line: &[u8], out: &mut [u8]) -> usize
    ensures { LineRun pkg.old line.now out.old result pkg.new out.new }
{
    let Some(command) = parse(line) else {
        return put_answer(Refusal::UnreadableLine.number(), out);
    };
    match command {
        Command::Put(e) => put_answer(run_put(pkg, line, e), out),
        Command::Drop => put_answer(run_drop(pkg, line), out),
        Command::Default(e) => put_answer(run_default(pkg, line, e), out),
        Command::Override(e) => put_answer(run_override(pkg, line, e), out),
        Command::List => run_list(pkg, out),
    }
}
