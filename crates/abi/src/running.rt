// Runs scripts. Each call is made through the exported function.
ghost use Rattle.std.specs.Prelude.{◌≡◌, ◌≤◌, ◌<◌, length};
ghost use Rattle.script.specs.Reading.{Called};
ghost use Rattle.base.specs.Buffer.{splice};
ghost use Rattle.abi.specs.Scripts.{reply_size, reply_bytes, RunAs};
ghost use Rattle.abi.specs.Turns.{Turned};

use crate::making::make;
use crate::replies::{Reply, one, three};
use output::refusals::Refusal;
use script::heads::{HEAD_SIZE, Head, next_call};
use script::numbers::put8;

// How many bytes a reply has.
const REPLY_SIZE: usize = 40;

// How many bytes of the script a turn took, none where the run ends, and how many of the output.
#[derive(Drop)]
struct Turn {
    read: usize,
    written: usize,
}

// Writes a reply as it lies in memory.
fn put_reply(out: &mut [u8], r: Reply)
    requires { reply_size ≤ length out.old }
    ensures { out.new ≡ splice out.old 0 (reply_bytes r) }
{
    put8(out, 0, r.number);
    put8(out, 8, r.count);
    put8(out, 16, r.first);
    put8(out, 24, r.second);
    put8(out, 32, r.third);
}

// Makes the call that the script begins with, if the output has room for its answer.
fn make_next(pkg: &mut [u8], s: &[u8], h: Head, out: &mut [u8]) -> Turn
    requires { Called s.now h }
    ensures { Turned s.now pkg.old out.old result.read result.written pkg.new out.new }
{
    let end = REPLY_SIZE + h.room;
    if out.len() < end {
        return Turn {
            read: 0,
            written: 0,
        };
    }
    let a = h.a;
    let b = h.b;
    let c = h.c;
    let d = h.d;
    let r = make(
        pkg,
        h.code,
        h.number,
        &s[HEAD_SIZE..a],
        &s[a..b],
        &s[b..c],
        &s[c..d],
        &mut out[REPLY_SIZE..end],
    );
    put_reply(out, r);
    Turn {
        read: d,
        written: end,
    }
}

// The next turn of a run.
fn take_turn(pkg: &mut [u8], s: &[u8], out: &mut [u8]) -> Turn
    ensures { Turned s.now pkg.old out.old result.read result.written pkg.new out.new }
{
    if let Some(h) = next_call(s) {
        return make_next(pkg, s, h, out);
    }
    if out.len() < REPLY_SIZE {
        return Turn {
            read: 0,
            written: 0,
        };
    }
    put_reply(out, one(Refusal::UnreadableLine.number(), 0));
    Turn {
        read: 0,
        written: REPLY_SIZE,
    }
}

// Makes the calls of a script one after the other, and writes the reply to each and what it leaves in its output: how many bytes are written, how many of the script the calls have, how many calls were made.
#[unsafe(no_mangle)]
pub extern "C" fn opc_run(pkg: &mut [u8], script: &[u8], out: &mut [u8]) -> Reply
    ensures { RunAs script.now pkg.old out.old result out.new pkg.new }
{
    let mut read = 0;
    let mut written = 0;
    let mut made = 0;
    while read < script.len() {
        let t = take_turn(pkg, &script[read..], &mut out[written..]);
        written += t.written;
        if t.read == 0 {
            return three(0, written, read, made);
        }
        read += t.read;
        made += 1;
    }
    three(0, written, read, made)
}
