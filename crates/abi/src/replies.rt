// The answer that every call hands to C and Rust, and how the engine's answers become it.
ghost use Rattle.std.specs.Prelude.{◌≡◌, ◌≤◌, List, [], ◌∷◌, ℕ, Ok};
ghost use Rattle.output.specs.Answers.{answer, refusing, failing, of_written};
ghost use Rattle.pack.specs.Pack.{of_resolved};
ghost use Rattle.model.specs.Calls.{flag as flagOf};
ghost use Rattle.contract.specs.Answers.{of_done, of_cut, of_found, of_totals};
ghost use Rattle.relationships.specs.Resolutions.{of_resolution};
ghost use Rattle.entries.specs.Promise.{of_entry_field};
ghost use Rattle.types.specs.TypeOrigins.{of_type_origin};
ghost use Rattle.abi.specs.Replies.{reply_of, HandsOver};

use contract::answers::{Cut, Totals};
use entries::listing::EntryField;
use output::refusals::{Refusal, Unwritten};
use pack::pack::Resolved;
use relationships::resolving::Resolution;
use store::rows::Span;
use types::origin::TypeOrigin;

// A call's number (0: accepted), how many values it answers, and the values; the others are 0.
#[repr(C)]
#[derive(Drop)]
pub struct Reply {
    pub number: u64,
    pub count: u64,
    pub first: u64,
    pub second: u64,
    pub third: u64,
}

fn of_values(n: u8, count: u64, first: usize, second: usize, third: usize) -> Reply
    ensures { result ≡ record { number = n; count = count; first = first; second = second; third = third } }
{
    Reply {
        number: n as u64,
        count,
        first: first as u64,
        second: second as u64,
        third: third as u64,
    }
}

pub(crate) fn one(n: u8, first: usize) -> Reply
    ensures { result ≡ reply_of (answer n (first ∷ []) []) }
{
    of_values(n, 1, first, 0, 0)
}

pub(crate) fn two(n: u8, first: usize, second: usize) -> Reply
    ensures { result ≡ reply_of (answer n (first ∷ second ∷ []) []) }
{
    of_values(n, 2, first, second, 0)
}

pub(crate) fn three(n: u8, first: usize, second: usize, third: usize) -> Reply
    ensures { result ≡ reply_of (answer n (first ∷ second ∷ third ∷ []) []) }
{
    of_values(n, 3, first, second, third)
}

// A refusal of a call that answers so many values: they are all 0.
pub(crate) fn of_refusal(count: u64, r: Refusal) -> Reply
    ensures { (out : List ℕ) → HandsOver (refusing count r out) count result out }
{
    of_values(r.number(), count, 0, 0, 0)
}

// The same of a call that writes: where its output is too short, the first value is the length that is needed.
fn of_unwritten(count: u64, u: Unwritten) -> Reply
    requires { 1 ≤ count }
    ensures { (out : List ℕ) → HandsOver (failing count u out) count result out }
{
    match u {
        Unwritten::TooShort(n) => of_values(3, count, n, 0, 0),
        Unwritten::Refused(r) => of_refusal(count, r),
    }
}

pub(crate) fn of_written(w: Result<usize, Unwritten>) -> Reply
    ensures { (out : List ℕ) → HandsOver (of_written w out) 1 result out }
{
    match w {
        Ok(n) => one(0, n),
        Err(u) => of_unwritten(1, u),
    }
}

pub(crate) fn of_resolved(w: Result<Resolved, Unwritten>) -> Reply
    ensures { (out : List ℕ) → HandsOver (of_resolved w out) 2 result out }
{
    match w {
        Ok(found) => two(0, found.package, found.part),
        Err(u) => of_unwritten(2, u),
    }
}

fn of_origin(origin: TypeOrigin) -> Reply
    ensures { (out : List ℕ) → HandsOver (of_type_origin (Ok origin) out) 2 result out }
{
    match origin {
        TypeOrigin::Override(n) => two(0, 2, n),
        TypeOrigin::Default(n) => two(0, 1, n),
        TypeOrigin::Neither => two(0, 0, 0),
    }
}

pub(crate) fn of_type_origin(w: Result<TypeOrigin, Unwritten>) -> Reply
    ensures { (out : List ℕ) → HandsOver (of_type_origin w out) 2 result out }
{
    match w {
        Ok(origin) => of_origin(origin),
        Err(u) => of_unwritten(2, u),
    }
}

pub(crate) fn of_entry_field(w: Result<EntryField, Unwritten>) -> Reply
    ensures { (out : List ℕ) → HandsOver (of_entry_field w out) 2 result out }
{
    match w {
        Ok(copied) => two(0, copied.length, copied.entries),
        Err(u) => of_unwritten(2, u),
    }
}

pub(crate) fn of_done(d: Result<(), Refusal>) -> Reply
    ensures { HandsOver (of_done d) 1 result [] }
{
    match d {
        Ok(()) => one(0, 0),
        Err(r) => of_refusal(1, r),
    }
}

pub(crate) fn of_cut(d: Result<Cut, Refusal>) -> Reply
    ensures { HandsOver (of_cut d) 2 result [] }
{
    match d {
        Ok(cut) => two(0, cut.size, cut.rest),
        Err(r) => of_refusal(2, r),
    }
}

pub(crate) fn of_found(d: Result<usize, Refusal>) -> Reply
    ensures { HandsOver (of_found d) 1 result [] }
{
    match d {
        Ok(n) => one(0, n),
        Err(r) => of_refusal(1, r),
    }
}

pub(crate) fn of_totals(d: Result<Totals, Refusal>) -> Reply
    ensures { HandsOver (of_totals d) 3 result [] }
{
    match d {
        Ok(all) => three(0, all.items, all.parts, all.charge),
        Err(r) => of_refusal(3, r),
    }
}

pub(crate) fn of_span(s: Span) -> Reply
    ensures { result ≡ reply_of (answer 0 (s.at ∷ s.length ∷ []) []) }
{
    two(0, s.at, s.length)
}

fn flag(b: bool) -> usize
    ensures { result ≡ flagOf b }
{
    if b { 1 } else { 0 }
}

fn of_led(led: Resolution) -> Reply
    ensures { (out : List ℕ) → HandsOver (of_resolution (Ok led) out) 3 result out }
{
    match led {
        Resolution::Internal { length, held } => three(0, length, 0, flag(held)),
        Resolution::External { length } => three(0, length, 1, 0),
    }
}

pub(crate) fn of_resolution(w: Result<Resolution, Unwritten>) -> Reply
    ensures { (out : List ℕ) → HandsOver (of_resolution w out) 3 result out }
{
    match w {
        Ok(led) => of_led(led),
        Err(u) => of_unwritten(3, u),
    }
}
