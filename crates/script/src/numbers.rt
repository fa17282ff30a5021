// Numbers of eight bytes, the low byte first.
ghost use Rattle.std.specs.Prelude.{◌≡◌, ◌+◌, ◌≤◌, length};
ghost use Rattle.base.specs.Buffer.{splice};
ghost use Rattle.script.specs.Numbers.{num8, le8};

use store::bytes::{get4, put4};

const HALF: u64 = 0x100000000;

pub fn get8(s: &[u8], at: usize) -> u64
    requires { at + 8 ≤ length s.now }
    ensures { result ≡ num8 s.now at }
{
    get4(s, at) as u64 + HALF * (get4(s, at + 4) as u64)
}

pub fn put8(out: &mut [u8], at: usize, v: u64)
    requires { at + 8 ≤ length out.old }
    ensures { out.new ≡ splice out.old at (le8 v) }
{
    put4(out, at, (v % HALF) as usize);
    put4(out, at + 4, (v / HALF) as usize);
}
