// Resolving references: RFC 3986, 5.2.2, 5.2.3 and 5.3.
ghost use Rattle.std.specs.Prelude.{◌≡◌, ◌++◌, ◌≤◌, length};
ghost use Rattle.iri.specs.References.{merged_path, target, resolve, resolve_reference};
ghost use Rattle.output.specs.Answers.{of_written, written};
ghost use Rattle.output.specs.Sends.{Sent, Fitted};
ghost use Rattle.iri.specs.Scratch.{Reached, Taken, Went};

use crate::dots::remove_dots;
use crate::split::{Parts, split};
use base::bytes::byte_at;
use chars::search::find_past;
use names::iris::{is_iri, is_package_iri};
use output::refusals::{Refusal, Unwritten};
use output::writing::emit;

// 5.2.3, for a reference with a path and neither scheme nor authority; authority: the base has one.
fn merge(authority: bool, base: &[u8], r: &[u8], out: &mut [u8]) -> usize
    requires { (length base.now ≤ 4096) × (length r.now ≤ 4096) }
    ensures { Sent out.old 0 (merged_path authority base.now r.now) result out.new }
{
    if byte_at(r, 0) == b'/' {
        return emit(out, 0, r);
    }
    if authority & (base.len() == 0) {
        let a = emit(out, 0, b"/");
        return emit(out, a, r);
    }
    let q = find_past(base, b'/');
    let a = emit(out, 0, &base[..q]);
    emit(out, a, r)
}

// Writes the path of r from the base path to the start of out, and says its length. What follows it in out is scratch.
pub fn relative_path(authority: bool, base: &[u8], r: &[u8], out: &mut [u8]) -> usize
    requires { (length base.now ≤ 255) × (length r.now ≤ 255) × (512 ≤ length out.old) }
    ensures { Reached authority base.now r.now result out.new }
{
    let mut scratch = [0; 512];
    let n = merge(authority, base, r, &mut scratch);
    remove_dots(&scratch[..n], out)
}

// The scheme and the authority of the target.
fn put_head(base: &[u8], b: Parts, r: &[u8], x: Parts, out: &mut [u8]) -> usize
    requires { Taken base.now r.now b x }
    ensures { Sent out.old 0 ((target base.now r.now).scheme ++ (target base.now r.now).authority) result out.new }
{
    let rs = x.scheme;
    let ra = x.authority;
    if rs != 0 {
        return emit(out, 0, &r[..ra]);
    }
    if ra != 0 {
        let bs = b.scheme;
        let at = emit(out, 0, &base[..bs]);
        return emit(out, at, &r[..ra]);
    }
    let ba = b.authority;
    emit(out, 0, &base[..ba])
}

// The path of the target is written to the start of out, and its length told. What follows it in out is scratch.
fn target_path(base: &[u8], b: Parts, r: &[u8], x: Parts, out: &mut [u8]) -> usize
    requires { Taken base.now r.now b x × (512 ≤ length out.old) }
    ensures { Went base.now r.now result out.new }
{
    let ra = x.authority;
    let rp = x.path;
    if ra != 0 {
        return remove_dots(&r[ra..rp], out);
    }
    let bs = b.scheme;
    let ba = b.authority;
    let bp = b.path;
    if rp == 0 {
        return emit(out, 0, &base[ba..bp]);
    }
    relative_path(bs != ba, &base[ba..bp], &r[..rp], out)
}

// The query and the fragment of the target.
fn put_tail(base: &[u8], b: Parts, r: &[u8], x: Parts, out: &mut [u8], at: usize) -> usize
    requires { Taken base.now r.now b x × (at ≤ 4096) }
    ensures { Sent out.old at ((target base.now r.now).query ++ (target base.now r.now).fragment) result out.new }
{
    let rq = x.query;
    if rq == 0 {
        let bp = b.path;
        let bq = b.query;
        let next = emit(out, at, &base[bp..bq]);
        return emit(out, next, r);
    }
    let rp = x.path;
    emit(out, at, &r[rp..])
}

// 5.3, recomposition.
fn put_target(base: &[u8], b: Parts, r: &[u8], x: Parts, path: &[u8], out: &mut [u8]) -> usize
    requires { Taken base.now r.now b x × (path.now ≡ (target base.now r.now).path) × (length path.now ≤ 511) }
    ensures { Sent out.old 0 (resolve base.now r.now) result out.new }
{
    let a = put_head(base, b, r, x, out);
    let e = emit(out, a, path);
    put_tail(base, b, r, x, out, e)
}

// Writes a reference resolved against a base, which both are judged, where all of it fits. Its length.
pub fn put_reference(base: &[u8], reference: &[u8], out: &mut [u8]) -> usize
    requires { (length base.now ≤ 255) × (length reference.now ≤ 255) }
    ensures { Fitted out.old (resolve base.now reference.now) result out.new }
{
    let b = split(base);
    let x = split(reference);
    let mut path = [0; 512];
    let k = target_path(base, b, reference, x, &mut path);
    let need = put_target(base, b, reference, x, &path[..k], &mut out[..0]);
    if out.len() < need {
        return need;
    }
    put_target(base, b, reference, x, &path[..k], out)
}

// An external target, resolved against a package IRI.
pub fn resolve_reference(base: &[u8], reference: &[u8], out: &mut [u8]) -> Result<usize, Unwritten>
    ensures { of_written result out.new ≡ written (resolve_reference base.now reference.now) out.old }
{
    if !is_package_iri(base) {
        return Err(Unwritten::Refused(Refusal::BadTarget));
    }
    if !is_iri(reference) {
        return Err(Unwritten::Refused(Refusal::BadTarget));
    }
    let need = put_reference(base, reference, out);
    if out.len() < need {
        return Err(Unwritten::TooShort(need));
    }
    Ok(need)
}
