// The header: its numbers, the empty package, and the test of a package.
ghost use Rattle.std.specs.Prelude.{◌≡◌, ◌++◌, [], ◌+◌, ◌^◌, ◌≤◌, ◌<◌, length};
ghost use Rattle.base.specs.Buffer.{splice};
ghost use Rattle.store.specs.Buffer.{num4, le4};
ghost use Rattle.store.specs.Layout.{header_size, heap_start, max_capacity, format_of, package_format, cap_of, count_of, used_of};
ghost use Rattle.store.specs.Rows.{rows_of};
ghost use Rattle.store.specs.Packages.{Shape, Sound, is_package};

use crate::bytes::{get4, put4};
use crate::{CAPACITY_AT, COUNT_AT, END_AT, HEAP_START, SLOT_COUNT, USED_AT};
use base::bytes::byte_at;
use base::moves::copy_in;

// The mark is "OPCPACK": its first four bytes as a number, and its last four.
const MARK_START: usize = 0x5043504F;

const MARK_END: usize = 0x4B434150;

// Where the header has the four bytes at the mark's start, those at its end, and the format.
const MARK_START_AT: usize = 0;

const MARK_END_AT: usize = 3;

const FORMAT_AT: usize = 7;

const FORMAT: u8 = 1;

const MAX_CAPACITY: usize = 1000000;

// The number in the four bytes from `at` on, those past the end taken as 0.
fn number(pkg: &[u8], at: usize) -> usize
    requires { at < header_size }
    ensures { (result ≡ num4 pkg.now at) × (result < 2 ^ 32) }
{
    if at + 4 <= pkg.len() {
        return get4(pkg, at);
    }
    u32::from_le_bytes([
        byte_at(pkg, at),
        byte_at(pkg, at + 1),
        byte_at(pkg, at + 2),
        0,
    ]) as usize
}

// The kind of package.
pub(crate) fn format(pkg: &[u8]) -> u8
    ensures { result ≡ format_of pkg.now }
{
    byte_at(pkg, FORMAT_AT)
}

// How many rows there are.
pub fn count(pkg: &[u8]) -> usize
    ensures { (result ≡ count_of pkg.now) × (result ≡ length (rows_of pkg.now)) × (result < 2 ^ 32) }
{
    number(pkg, COUNT_AT)
}

// How many bytes the rows use.
pub fn used(pkg: &[u8]) -> usize
    ensures { (result ≡ used_of pkg.now) × (result < 2 ^ 32) }
{
    number(pkg, USED_AT)
}

// How many bytes more the rows may use.
pub fn free(pkg: &[u8]) -> usize
    requires { Shape pkg.now }
    ensures { result + used_of pkg.now ≡ cap_of pkg.now }
{
    get4(pkg, CAPACITY_AT) - get4(pkg, USED_AT)
}

// Writes the number of rows, the bytes that they use, and the end of the last.
pub(crate) fn put_counts(pkg: &mut [u8], n: usize, u: usize, e: usize)
    requires { (24 ≤ length pkg.old) × (n < 2 ^ 32) × (u < 2 ^ 32) × (e < 2 ^ 32) }
    ensures { pkg.new ≡ splice pkg.old 12 (le4 n ++ (le4 u ++ le4 e)) }
{
    put4(pkg, COUNT_AT, n);
    put4(pkg, USED_AT, u);
    put4(pkg, END_AT, e);
}

// Makes an empty package of a buffer. Byte 7 of what is copied in is the format.
pub fn init(pkg: &mut [u8], cap: usize)
    requires { (cap + heap_start ≤ length pkg.old) × (cap ≤ max_capacity) }
    ensures { Sound pkg.new × (rows_of pkg.new ≡ []) × (cap_of pkg.new ≡ cap) × (format_of pkg.new ≡ package_format) }
{
    copy_in(pkg, 0, b"OPCPACK\x01");
    put4(pkg, CAPACITY_AT, cap);
    put_counts(pkg, 0, 0, 0);
}

// The written test of a package. Two numbers of four bytes cover the seven bytes of the mark.
pub fn is_package(pkg: &[u8]) -> bool
    ensures { result ≡ is_package pkg.now }
{
    let len = pkg.len();
    if len < HEAP_START {
        return false;
    }
    let cap = get4(pkg, CAPACITY_AT);
    let used = get4(pkg, USED_AT);
    let end = get4(pkg, END_AT);
    (get4(pkg, MARK_START_AT) == MARK_START)
        & (get4(pkg, MARK_END_AT) == MARK_END)
        & (format(pkg) == FORMAT)
        & (get4(pkg, COUNT_AT) <= SLOT_COUNT)
        & (cap + HEAP_START <= len)
        & (cap <= MAX_CAPACITY)
        & (used <= cap)
        & (used <= end)
        & (end + HEAP_START <= len)
}
