// Copying into a lent output.
ghost use Rattle.std.specs.Prelude.{◌-◌, ◌≤◌, length, take, drop};
ghost use Rattle.output.specs.Sends.{Sent};

use base::moves::copy_in;
use base::numbers::smaller;

// Copies what a text has past `skip` bytes to place `at` of the output, as much as fits there. The place behind it.
pub(crate) fn copy_rest(out: &mut [u8], at: usize, text: &[u8], skip: u64) -> usize
    requires { at ≤ length out.old }
    ensures { Sent out.old at (take (length out.old - at) (drop skip text.now)) result out.new }
{
    let n = text.len();
    if n as u64 <= skip {
        return at;
    }
    let a = skip as usize;
    let k = smaller(n - a, out.len() - at);
    let e = a + k;
    copy_in(out, at, &text[a..e]);
    at + k
}
