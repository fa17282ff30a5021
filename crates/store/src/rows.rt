// The rows: read field by field, put in, taken out.
ghost use Rattle.std.specs.Prelude.{◌≡◌, ◌+◌, ◌^◌, ◌≤◌, ◌<◌, length};
ghost use Rattle.store.specs.Layout.{count_of};
ghost use Rattle.store.specs.Rows.{row_at, tag_at, size_at, field_of, make_row};
ghost use Rattle.store.specs.Packages.{Shape, Sound, Room, Inserted, Removed};
ghost use Rattle.store.specs.Places.{Spanned, FieldAt, HeadOf};

use crate::bytes::get4;
use crate::header::put_counts;
use crate::heap::{end_without, free_place, heap_size, put_fields};
use crate::slots::{Slot, number, offset, put_slot, size};
use crate::{
    COUNT_AT, END_AT, HEADER_SIZE, HEAP_START, LENGTH0_AT, LENGTH1_AT, LENGTH2_AT, LENGTH3_AT,
    OFFSET_AT, SLOT_COUNT, SLOT_SIZE, TAG_AT, USED_AT,
};
use base::moves::shift;

// The tag of row i: 0 where the buffer has no such row.
pub fn tag(pkg: &[u8], i: usize) -> usize
    ensures { (result < 2 ^ 32) × (Shape pkg.now → i < count_of pkg.now → result ≡ tag_at pkg.now i) }
{
    if pkg.len() < HEAP_START {
        return 0;
    }
    if SLOT_COUNT <= i {
        return 0;
    }
    number(pkg, i, TAG_AT)
}

// How many bytes row i has, as its slot tells: 0 where the buffer has no such row.
pub fn row_size(pkg: &[u8], i: usize) -> usize
    ensures { (result < 2 ^ 34) × (Shape pkg.now → i < count_of pkg.now → result ≡ size_at pkg.now i) }
{
    if pkg.len() < HEAP_START {
        return 0;
    }
    if SLOT_COUNT <= i {
        return 0;
    }
    size(pkg, i)
}

// The bytes from `at` on, `length` of them.
#[derive(Clone, Copy)]
pub struct Span {
    pub at: usize,
    pub length: usize,
}

// The n bytes from `at` on, or none where the buffer has not so many.
fn span_at(pkg: &[u8], at: usize, n: usize) -> Span
    ensures { Spanned pkg.now at n result.at result.length }
{
    if pkg.len() < at {
        return Span { at: 0, length: 0 };
    }
    if pkg.len() - at < n {
        return Span { at: 0, length: 0 };
    }
    Span { at, length: n }
}

// Where field j of row i lies: no bytes where the buffer has no such row. The C interface answers with such a place.
pub fn field_place(pkg: &[u8], i: usize, j: usize) -> Span
    ensures { FieldAt pkg.now i j result.at result.length }
{
    if pkg.len() < HEAP_START {
        return Span { at: 0, length: 0 };
    }
    if SLOT_COUNT <= i {
        return Span { at: 0, length: 0 };
    }
    let a = HEAP_START + number(pkg, i, OFFSET_AT);
    let n0 = number(pkg, i, LENGTH0_AT);
    let n1 = number(pkg, i, LENGTH1_AT);
    let n2 = number(pkg, i, LENGTH2_AT);
    let n3 = number(pkg, i, LENGTH3_AT);
    match j {
        0 => span_at(pkg, a, n0),
        1 => span_at(pkg, a + n0, n1),
        2 => span_at(pkg, a + n0 + n1, n2),
        _ => span_at(pkg, a + n0 + n1 + n2, n3),
    }
}

// Field j of row i: none where the buffer has no such row.
pub fn field(pkg: &[u8], i: usize, j: usize) -> &[u8]
    ensures { (length result.now < 2 ^ 32) × (length result.now ≤ length pkg.now) × (Sound pkg.now → i < count_of pkg.now → result.now ≡ field_of (row_at pkg.now i) j) }
{
    let s = field_place(pkg, i, j);
    let a = s.at;
    let e = a + s.length;
    &pkg[a..e]
}

// The tag of a row, and where its slot says that its first field lies.
#[derive(Clone, Copy)]
pub struct RowHead {
    pub tag: usize,
    pub at: usize,
    pub length: usize,
}

// The head of row i. A buffer that is not sound may not have all the bytes of the field.
pub fn head(pkg: &[u8], i: usize) -> RowHead
    requires { Shape pkg.now × (i < count_of pkg.now) }
    ensures { HeadOf pkg.now i result.tag result.at result.length }
{
    RowHead {
        tag: number(pkg, i, TAG_AT),
        at: HEAP_START + number(pkg, i, OFFSET_AT),
        length: number(pkg, i, LENGTH0_AT),
    }
}

// Puts a row in at r. In a sound package the heap has room at its free place.
pub fn insert(pkg: &mut [u8], r: usize, tag: usize, f0: &[u8], f1: &[u8], f2: &[u8], f3: &[u8])
    requires shape { Shape pkg.old }
    requires room { Room pkg.old r (length f0.now + (length f1.now + (length f2.now + length f3.now))) }
    requires f0_nonzero { (0 < length f0.now) × (tag < 2 ^ 32) }
    ensures { Sound pkg.old → Inserted pkg.old pkg.new r (make_row tag f0.now f1.now f2.now f3.now) }
{
    let n = get4(pkg, COUNT_AT);
    let u = get4(pkg, USED_AT);
    let k = f0.len() + (f1.len() + (f2.len() + f3.len()));
    let s = HEADER_SIZE + SLOT_SIZE * r;
    let at = free_place(pkg, k);
    if at < u {
        return;
    }
    if heap_size(pkg) < at + k {
        return;
    }
    put_fields(pkg, HEAP_START + at, f0, f1, f2, f3);
    shift(pkg, s, s + SLOT_SIZE, SLOT_SIZE * (n - r));
    let slot = Slot {
        offset: at,
        length0: f0.len(),
        length1: f1.len(),
        length2: f2.len(),
        length3: f3.len(),
        tag,
    };
    put_slot(pkg, s, slot);
    put_counts(pkg, n + 1, u + k, at + k);
}

// Takes row r out. Its bytes stay where they are until the heap is compacted. In a sound package the rows use as many bytes as it has.
pub fn remove(pkg: &mut [u8], r: usize)
    requires shape { Shape pkg.old }
    requires r_bound { r < count_of pkg.old }
    ensures { Sound pkg.old → Removed pkg.old pkg.new r }
{
    let n = get4(pkg, COUNT_AT);
    let u = get4(pkg, USED_AT);
    let e = get4(pkg, END_AT);
    let o = offset(pkg, r);
    let k = size(pkg, r);
    if u < k {
        return;
    }
    let s = HEADER_SIZE + SLOT_SIZE * r;
    shift(pkg, s + SLOT_SIZE, s, SLOT_SIZE * (n - (r + 1)));
    put_counts(pkg, n - 1, u - k, end_without(n, e, o, k));
}
