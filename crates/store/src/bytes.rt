// Numbers in a buffer, and parts of it.
ghost use Rattle.std.specs.Prelude.{◌≡◌, ◌+◌, ◌^◌, ◌≤◌, ◌<◌, length};
ghost use Rattle.base.specs.Buffer.{splice};
ghost use Rattle.store.specs.Buffer.{num4, le4};

use base::moves::copy_in;

// The little-endian number in the four bytes from `at` on.
pub fn get4(pkg: &[u8], at: usize) -> usize
    requires { at + 4 ≤ length pkg.now }
    ensures { (result ≡ num4 pkg.now at) × (result < 2 ^ 32) }
{
    u32::from_le_bytes([pkg[at], pkg[at + 1], pkg[at + 2], pkg[at + 3]]) as usize
}

// Writes v as a little-endian number into the four bytes from `at` on.
pub fn put4(pkg: &mut [u8], at: usize, v: usize)
    requires { (at + 4 ≤ length pkg.old) × (v < 2 ^ 32) }
    ensures { pkg.new ≡ splice pkg.old at (le4 v) }
{
    copy_in(pkg, at, &(v as u32).to_le_bytes());
}
