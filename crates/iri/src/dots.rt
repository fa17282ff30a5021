// Dot segments: RFC 3986, 5.2.4.
ghost use Rattle.std.specs.Prelude.{◌≡◌, ◌-◌, ◌≤◌, length};
ghost use Rattle.chars.specs.Bytes.{slash};
ghost use Rattle.chars.specs.Lists.{after_last};
ghost use Rattle.iri.specs.References.{rule as ruleOf};
ghost use Rattle.iri.specs.Scratch.{of_move, rule_end, DotsRemoved};

use chars::search::{find, find_past};
use chars::texts::{begins, is_same};
use output::writing::emit;

// What a turn does with the input's first bytes.
#[derive(Drop)]
enum Move {
    Skip(usize),
    Root,
    Up(usize),
    UpRoot,
    Finish,
    Copy(usize),
}

fn rule_end(s: &[u8]) -> Move
    ensures { of_move result ≡ rule_end s.now }
{
    if is_same(s, b"/..") {
        return Move::UpRoot;
    }
    if is_same(s, b".") | is_same(s, b"..") {
        return Move::Finish;
    }
    Move::Copy(find(s, 1, b'/'))
}

fn rule(s: &[u8]) -> Move
    ensures { of_move result ≡ ruleOf s.now }
{
    if begins(s, b"../") {
        return Move::Skip(3);
    }
    if begins(s, b"./") {
        return Move::Skip(2);
    }
    if begins(s, b"/./") {
        return Move::Skip(2);
    }
    if is_same(s, b"/.") {
        return Move::Root;
    }
    if begins(s, b"/../") {
        return Move::Up(3);
    }
    rule_end(s)
}

// The length of s without its last segment and the slash before it.
fn chopped(s: &[u8]) -> usize
    ensures { result ≡ after_last slash s.now - 1 }
{
    let q = find_past(s, b'/');
    if q == 0 {
        return 0;
    }
    q - 1
}

// Writes the path s without its dot segments to the start of out, and says how many bytes that are. What follows them in out is scratch.
pub(crate) fn remove_dots(s: &[u8], out: &mut [u8]) -> usize
    requires { (length s.now ≤ length out.old) × (length s.now ≤ 4096) }
    ensures { DotsRemoved s.now result out.new }
{
    let mut i = 0;
    let mut o = 0;
    while i < s.len() {
        let m = rule(&s[i..]);
        match m {
            Move::Skip(n) => {
                i += n;
            }
            Move::Root => {
                out[o] = b'/';
                return o + 1;
            }
            Move::Up(n) => {
                o = chopped(&out[..o]);
                i += n;
            }
            Move::UpRoot => {
                o = chopped(&out[..o]);
                out[o] = b'/';
                return o + 1;
            }
            Move::Finish => {
                return o;
            }
            Move::Copy(n) => {
                let e = i + n;
                o = emit(out, o, &s[i..e]);
                i = e;
            }
        }
    }
    o
}
