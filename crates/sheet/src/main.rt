// The program `sheet`: runs each line of its input on one package, and prints what it answers. The input may be of any length.
#![tactic(auto)]

mod standard;

ghost use Rattle.std.specs.Prelude.{◌+◌, ◌<◌, ◌≤◌, [], length};
ghost use Rattle.model.specs.Calls.{overhead};
ghost use Rattle.commands.specs.Feeding.{most_shown};
ghost use Rattle.commands.specs.Inputs.{sheet_capacity};
ghost use Rattle.sheet.specs.Account.{Ready, Whole};

use commands::feeding::{feed, finish};
use items::calls::start;
use standard::{print, read_some};

const CAPACITY: u64 = 30000;

// How many bytes a run has read and written.
#[derive(Drop)]
struct Totals {
    read: usize,
    written: usize,
}

// Reads once and runs what came, behind the n bytes of a line. Whether there may be more.
fn run_some(
    rt: &HostRuntime,
    pkg: &mut [u8],
    line: &mut [u8],
    n: &mut usize,
    piece: &mut [u8],
    out: &mut [u8],
    read: &mut usize,
    written: &mut usize,
) -> bool
    requires { Ready pkg.old line.old n.old [] out.old read.old written.old }
    ensures { Ready pkg.new line.new n.new [] out.new read.new written.new }
{
    let k = read_some(rt, piece, read);
    let came = &piece[..k];
    let mut left = *n;
    let mut i = 0;
    while i < came.len() {
        let f = feed(pkg, line, left, came, i, out);
        let e = f.printed;
        print(rt, &out[..e], written);
        left = f.length;
        i = f.from;
    }
    *n = left;
    k > 0
}

// A proved loop has to end, and nothing says that an input does: the loop counts its turns down, from a number that no run uses up.
fn run_all(
    rt: &HostRuntime,
    pkg: &mut [u8],
    line: &mut [u8],
    piece: &mut [u8],
    out: &mut [u8],
    read: &mut usize,
    written: &mut usize,
) -> usize
    requires { Ready pkg.old line.old 0 [] out.old read.old written.old }
    ensures { Ready pkg.new line.new result [] out.new read.new written.new }
{
    let mut n = 0;
    let mut turns = u64::MAX;
    while turns > 0 && run_some(rt, pkg, line, &mut n, piece, out, read, written) {
        turns -= 1;
    }
    n
}

fn run(
    rt: &HostRuntime,
    pkg: &mut [u8],
    line: &mut [u8],
    piece: &mut [u8],
    out: &mut [u8],
) -> Totals
    requires { (sheet_capacity + overhead ≤ length pkg.old) × (1024 < length line.old) × (most_shown ≤ length out.old) }
    ensures { Whole result.read result.written }
{
    let mut read = 0;
    let mut written = 0;
    let _ = start(pkg, CAPACITY);
    let n = run_all(rt, pkg, line, piece, out, &mut read, &mut written);
    let e = finish(pkg, line, n, out);
    print(rt, &out[..e], &mut written);
    Totals { read, written }
}

fn main(rt: HostRuntime) {
    let mut pkg = [0u8; 62768];
    let mut line = [0u8; 1025];
    let mut piece = [0u8; 65536];
    let mut out = [0u8; 131072];
    run(&rt, &mut pkg, &mut line, &mut piece, &mut out);
}
