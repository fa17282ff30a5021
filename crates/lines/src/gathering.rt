// Lines out of an input that comes in pieces.
ghost use Rattle.lines.specs.Gathering.{Gathers};

use base::moves::copy_in;
use base::numbers::smaller;
use chars::search::find;

// How many bytes of a line there are so far, and the place behind them in the piece: that of a line feed, or the end.
#[derive(Drop)]
pub struct Gathered {
    pub length: usize,
    pub at: usize,
}

// Adds to the n bytes of a line what the piece has of it from a place on. What does not fit is left out.
pub fn gather(line: &mut [u8], n: usize, piece: &[u8], from: usize) -> Gathered
    ensures { Gathers line.old n piece.now from result.length result.at line.new }
{
    let at = find(piece, from, b'\n');
    let had = smaller(n, line.len());
    let more = smaller(at - from, line.len() - had);
    if more == 0 {
        return Gathered { length: had, at };
    }
    let e = from + more;
    copy_in(line, had, &piece[from..e]);
    Gathered {
        length: had + more,
        at,
    }
}
