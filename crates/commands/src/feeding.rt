// An input that comes in pieces: its lines are gathered, and run one after the other.
ghost use Rattle.commands.specs.Feeding.{Steps, Feeds, Ends};

use crate::running::run_line;
use base::numbers::smaller;
use lines::gathering::gather;

// No line prints more bytes than this.
const MOST_SHOWN: usize = 101888;

// How many bytes of a line there are that is not at its end yet, the place in the piece behind them, and how many bytes are printed.
#[derive(Drop)]
pub struct Fed {
    pub length: usize,
    pub from: usize,
    pub printed: usize,
}

// Goes on with a piece from a place to its next line feed, and runs the line that ends there; or to the end of the piece.
fn feed_line(
    pkg: &mut [u8],
    line: &mut [u8],
    n: usize,
    piece: &[u8],
    from: usize,
    out: &mut [u8],
) -> Fed
    ensures { Steps pkg.old line.old n piece.now from out.old result.length result.from result.printed pkg.new line.new out.new }
{
    let g = gather(line, n, piece, from);
    let e = g.length;
    let at = g.at;
    if piece.len() <= at {
        return Fed {
            length: e,
            from: at,
            printed: 0,
        };
    }
    let printed = run_line(pkg, &line[..e], out);
    Fed {
        length: 0,
        from: at + 1,
        printed,
    }
}

// Goes on with a piece until it is used up, or until the output might not hold what one more line prints.
pub fn feed(
    pkg: &mut [u8],
    line: &mut [u8],
    n: usize,
    piece: &[u8],
    from: usize,
    out: &mut [u8],
) -> Fed
    ensures { Feeds pkg.old line.old n piece.now from out.old result.length result.from result.printed pkg.new line.new out.new }
{
    let mut m = n;
    let mut i = from;
    let mut at = 0;
    while i < piece.len() {
        let f = feed_line(pkg, line, m, piece, i, &mut out[at..]);
        m = f.length;
        i = f.from;
        at += f.printed;
        if out.len() < at + MOST_SHOWN {
            return Fed {
                length: m,
                from: i,
                printed: at,
            };
        }
    }
    Fed {
        length: m,
        from: i,
        printed: at,
    }
}

// The input has ended: runs the n bytes of a line that no line feed ended. How many bytes are printed.
pub fn finish(pkg: &mut [u8], line: &[u8], n: usize, out: &mut [u8]) -> usize
    ensures { Ends pkg.old line.now n out.old result out.new }
{
    let m = smaller(n, line.len());
    if m == 0 {
        return 0;
    }
    run_line(pkg, &line[..m], out)
}
