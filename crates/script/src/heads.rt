// The head of a call in a script.
ghost use Rattle.std.specs.Prelude.{◌≤◌, length};
ghost use Rattle.script.specs.Calls.{head_size};
ghost use Rattle.script.specs.Reading.{Headed, Read};

use crate::numbers::get8;
use store::bytes::get4;

// How many bytes a head has, and the greatest code of a call.
pub const HEAD_SIZE: usize = 32;

const LAST_CODE: usize = 23;

// The call's code, the length of the output that it is lent, its number, and where its four texts end.
#[derive(Clone, Copy)]
pub struct Head {
    pub code: usize,
    pub room: usize,
    pub number: u64,
    pub a: usize,
    pub b: usize,
    pub c: usize,
    pub d: usize,
}

fn read_head(s: &[u8]) -> Head
    requires { head_size ≤ length s.now }
    ensures { Headed s.now result }
{
    let a = HEAD_SIZE + get4(s, 8);
    let b = a + get4(s, 12);
    let c = b + get4(s, 16);
    let d = c + get4(s, 20);
    Head {
        code: get4(s, 0),
        room: get4(s, 4),
        number: get8(s, 24),
        a,
        b,
        c,
        d,
    }
}

// The call that a script begins with, if its bytes begin with a whole one.
pub fn next_call(s: &[u8]) -> Option<Head>
    ensures { Read s.now result }
{
    if s.len() < HEAD_SIZE {
        return None;
    }
    let h = read_head(s);
    if s.len() < h.d {
        return None;
    }
    if h.code < 1 {
        return None;
    }
    if LAST_CODE < h.code {
        return None;
    }
    Some(h)
}
