// Writing into a lent output.
ghost use Rattle.std.specs.Prelude.{◌≡◌, [], ◌^◌, ◌≤◌, length};
ghost use Rattle.output.specs.Answers.{Text, of_written, written};
ghost use Rattle.output.specs.Sends.{Sent};

use crate::refusals::Unwritten;
use base::moves::copy_in;

// Sends bytes to place at of out: writes them where all fit, and says the next place in any case.
pub fn emit(out: &mut [u8], at: usize, bytes: &[u8]) -> usize
    requires { (at ≤ 2 ^ 60) × (length bytes.now ≤ 2 ^ 60) }
    ensures { Sent out.old at bytes.now result out.new }
{
    let next = at + bytes.len();
    if out.len() < next {
        return next;
    }
    copy_in(out, at, bytes);
    next
}

// A whole text, as the answer of a call: how many bytes it has.
pub fn put_text(text: &[u8], out: &mut [u8]) -> Result<usize, Unwritten>
    ensures { of_written result out.new ≡ written (Text text.now []) out.old }
{
    if out.len() < text.len() {
        return Err(Unwritten::TooShort(text.len()));
    }
    copy_in(out, 0, text);
    Ok(text.len())
}
