// What stands at a place of a stream: blanks, a text that is expected.
ghost use Rattle.std.specs.Prelude.{◌≡◌, ◌≤◌, length, drop};
ghost use Rattle.chars.specs.Lists.{begins as beginsWith};
ghost use Rattle.markup.specs.Marks.{blank, after_blanks, expected as expectedNext};
ghost use Rattle.markup.specs.Walks.{Reached, number, refusal_of, Walked};

use chars::texts::begins;
use output::refusals::Refusal;

// Why a stream is refused: it isn't accepted, or a start tag is nested too deep. The numbers are those of the refusals.
#[derive(Clone, Copy)]
pub enum Fault {
    Malformed = 19,
    TooDeep = 20,
}

impl Fault {
    pub fn number(self) -> u8
        ensures { result ≡ number self }
    {
        self as u8
    }
}

impl From<Fault> for Refusal {
    ghost from_gives = { λ f r. r ≡ refusal_of f };

    fn from(f: Fault) -> Refusal {
        match f {
            Fault::Malformed => Refusal::MalformedStream,
            Fault::TooDeep => Refusal::TooDeep,
        }
    }
}

pub(crate) fn is_blank(b: u8) -> bool
    ensures { result ≡ blank b }
{
    (b == b' ') | (b == b'\t') | (b == b'\r') | (b == b'\n')
}

// Where the blanks end that begin at `at`. The loop of a name's bytes is its like; with the test as a closure either would be as long.
pub(crate) fn blanks_end(s: &[u8], at: usize) -> usize
    requires { at ≤ length s.now }
    ensures { Reached s.now at result × (drop result s.now ≡ after_blanks (drop at s.now)) }
{
    for i in at..s.len() {
        if !is_blank(s[i]) {
            return i;
        }
    }
    s.len()
}

// Whether t stands at `at`.
pub(crate) fn stands(s: &[u8], at: usize, t: &[u8]) -> bool
    requires { at ≤ length s.now }
    ensures { result ≡ beginsWith t.now (drop at s.now) }
{
    begins(&s[at..], t)
}

// Past the text t that must stand at `at`.
pub(crate) fn expected(s: &[u8], at: usize, t: &[u8]) -> Result<usize, Fault>
    requires { at ≤ length s.now }
    ensures { Walked s.now at (expectedNext t.now (drop at s.now)) result }
{
    if stands(s, at, t) {
        return Ok(at + t.len());
    }
    Err(Fault::Malformed)
}
