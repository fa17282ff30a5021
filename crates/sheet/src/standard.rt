// Standard input and output. No contract can say which bytes a call of `read` or `write` moves. Such calls are made here alone, and what they move is promised
// to have passed, and counted.
ghost use Rattle.std.specs.Prelude.{◌≡◌, ◌≤◌, length, take};
ghost use Rattle.sheet.specs.Passing.{Passes};

use std::io::{Print, Read};

// Says on the error output what failed, if it takes that: the program goes on, and its status is 0.
fn complain(rt: &HostRuntime, text: &[u8]) {
    rt.stderr().write_all(text).unwrap_or(());
}

// Hands a text to standard output.
pub fn print(rt: &HostRuntime, text: &[u8], written: &mut usize)
    ensures { Passes written.old text.now written.new }
{
    if rt.write_all(text).is_err() {
        complain(rt, b"sheet: output could not be written\n");
    }
    *written = written.wrapping_add(text.len());
}

// How many bytes a read of standard input put to the front of the piece: 0 where it failed.
fn count(rt: &HostRuntime, piece: &mut [u8]) -> usize
    ensures { (result ≤ length piece.new) × (result ≡ length (take result piece.new)) }
{
    match rt.stdin().read(piece) {
        Ok(k) => k,
        Err(_) => {
            complain(rt, b"sheet: input could not be read\n");
            0
        }
    }
}

// Reads once, to the front of the piece. How many bytes came.
pub fn read_some(rt: &HostRuntime, piece: &mut [u8], read: &mut usize) -> usize
    ensures prefix_len { (result ≤ length piece.new) × (result ≡ length (take result piece.new)) }
    ensures passes { Passes read.old (take result piece.new) read.new }
{
    let k = count(rt, piece);
    *read = read.wrapping_add(k);
    k
}
