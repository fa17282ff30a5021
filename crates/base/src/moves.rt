// Bytes, copied and moved.
ghost use Rattle.std.specs.Prelude.{◌≡◌, ◌++◌, ◌+◌, ◌-◌, ◌≤◌, length};
ghost use Rattle.base.specs.Buffer.{part, splice};

// How many bytes a block has.
const BLOCK: usize = 4096;

// Copies src into pkg from `at` on.
pub fn copy_in(pkg: &mut [u8], at: usize, src: &[u8])
    requires { at + length src.now ≤ length pkg.old }
    ensures { pkg.new ≡ splice pkg.old at src.now }
{
    let e = at + src.len();
    pkg[at..e].copy_from_slice(src);
}

// Moves the n bytes from `from` on to `to`, a block at most, through a block of the function's own: no other memory can lie there, so the
// compiler makes one move of the two copies.
fn move_block(pkg: &mut [u8], from: usize, to: usize, n: usize)
    requires { (from + n ≤ length pkg.old) × (to + n ≤ length pkg.old) × (n ≤ 4096) }
    ensures { pkg.new ≡ splice pkg.old to (part from n pkg.old) }
{
    let e = from + n;
    let mut block = [0; BLOCK];
    copy_in(&mut block, 0, &pkg[from..e]);
    copy_in(pkg, to, &block[..n]);
}

// `shift`, downwards: the first block first. Out of line, since most moves are of one block.
#[inline(never)]
fn move_down(pkg: &mut [u8], from: usize, to: usize, count: usize)
    requires { (to ≤ from) × (from + count ≤ length pkg.old) }
    ensures { pkg.new ≡ splice pkg.old to (part from count pkg.old) }
{
    for i in (0..count).step_by(BLOCK) {
        move_block(pkg, from + i, to + i, BLOCK.min(count - i));
    }
}

// `shift`, upwards: the last block first. Out of line, as `move_down` is.
#[inline(never)]
fn move_up(pkg: &mut [u8], from: usize, to: usize, count: usize)
    requires { (from ≤ to) × (to + count ≤ length pkg.old) }
    ensures { pkg.new ≡ splice pkg.old to (part from count pkg.old) }
{
    for b in (0..count.div_ceil(BLOCK)).rev() {
        let at = BLOCK * b;
        move_block(pkg, from + at, to + at, BLOCK.min(count - at));
    }
}

// Moves the `count` bytes from `from` on to `to`, down or up. `copy_within` makes no call of the machine's move, and takes 1.3 to 2.4 times as long.
pub fn shift(pkg: &mut [u8], from: usize, to: usize, count: usize)
    requires { (from + count ≤ length pkg.old) × (to + count ≤ length pkg.old) }
    ensures { pkg.new ≡ splice pkg.old to (part from count pkg.old) }
{
    if from == to {
        return;
    }
    if count <= BLOCK {
        move_block(pkg, from, to, count);
    } else if to < from {
        move_down(pkg, from, to, count);
    } else {
        move_up(pkg, from, to, count);
    }
}

// `turn`, of a block at most: it waits in a block of the function's own.
fn turn_block(pkg: &mut [u8], a: usize, n: usize, k: usize)
    requires { (k ≤ n) × (k ≤ 4096) × (a + n ≤ length pkg.old) }
    ensures { pkg.new ≡ splice pkg.old a (part (a + k) (n - k) pkg.old ++ part a k pkg.old) }
{
    let e = a + k;
    let m = n - k;
    let mut block = [0; BLOCK];
    copy_in(&mut block, 0, &pkg[a..e]);
    move_down(pkg, e, a, m);
    copy_in(pkg, a + m, &block[..k]);
}

// Moves the first k of the n bytes from a on behind the others. Up to two blocks take `rotate_left` 1.3 to 1.9 times as long.
// Out of line, so that its block is no part of a caller's frame.
#[inline(never)]
pub fn turn(pkg: &mut [u8], a: usize, n: usize, k: usize)
    requires { (k ≤ n) × (a + n ≤ length pkg.old) }
    ensures { pkg.new ≡ splice pkg.old a (part (a + k) (n - k) pkg.old ++ part a k pkg.old) }
{
    if (k == n) | (2 * BLOCK < k) {
        let e = a + n;
        pkg[a..e].rotate_left(k);
        return;
    }
    for i in (0..k).step_by(BLOCK) {
        turn_block(pkg, a, n, BLOCK.min(k - i));
    }
}
