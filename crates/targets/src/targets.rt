// Sources and targets of relationships.
ghost use Rattle.std.specs.Prelude.{◌≡◌, ◌≤◌, length};
ghost use Rattle.targets.specs.Targets.{source_refusal, internal, target_refusal_from, resolve_target, mode_number, ModeFrom};
ghost use Rattle.output.specs.Answers.{of_written, written};
ghost use Rattle.output.specs.Refusals.{number_of};
ghost use Rattle.targets.specs.Scratch.{NamedAs};

use chars::texts::is_root;
use iri::references::relative_path;
use iri::split::split;
use names::iris::is_iri;
use names::parts::{is_part_name, is_reserved};
use output::refusals::{Refusal, Unwritten};
use output::writing::put_text;

// A source is / or a part name that is not reserved.
pub fn check_source(s: &[u8]) -> Result<(), Refusal>
    ensures { number_of result ≡ source_refusal s.now }
{
    if is_root(s) {
        return Ok(());
    }
    if !is_part_name(s) {
        return Err(Refusal::NotAPartName);
    }
    if is_reserved(s) {
        return Err(Refusal::Reserved);
    }
    Ok(())
}

// An IRI that is a path from its start to its end.
fn is_internal(t: &[u8]) -> bool
    ensures { result ≡ internal t.now }
{
    if !is_iri(t) {
        return false;
    }
    let x = split(t);
    let b = x.authority;
    let p = x.path;
    (b == 0) & (p == t.len())
}

// The part name that an internal target resolves to is written to the start of out: its length. What follows it in out is scratch.
pub fn resolve_name(source: &[u8], target: &[u8], out: &mut [u8]) -> Result<usize, Refusal>
    requires { (length source.now ≤ 255) × (512 ≤ length out.old) }
    ensures { NamedAs source.now target.now result out.new }
{
    if !is_internal(target) {
        return Err(Refusal::BadTarget);
    }
    let k = relative_path(true, source, target, out);
    if !is_part_name(&out[..k]) {
        return Err(Refusal::BadTarget);
    }
    if is_reserved(&out[..k]) {
        return Err(Refusal::Reserved);
    }
    Ok(k)
}

// An internal target, resolved from its source.
pub fn resolve_target(source: &[u8], target: &[u8], out: &mut [u8]) -> Result<usize, Unwritten>
    ensures { of_written result out.new ≡ written (resolve_target source.now target.now) out.old }
{
    check_source(source)?;
    let mut scratch = [0; 512];
    let n = resolve_name(source, target, &mut scratch)?;
    put_text(&scratch[..n], out)
}

// How a target is meant: a path from its source, or an IRI of its own.
#[derive(Clone, Copy, PartialEq, Eq)]
pub enum TargetMode {
    Internal = 0,
    External = 1,
}

impl TryFrom<u64> for TargetMode {
    type Error = Refusal;

    ghost try_from_gives = { ModeFrom };

    fn try_from(mode: u64) -> Result<TargetMode, Refusal> {
        match mode {
            0 => Ok(TargetMode::Internal),
            1 => Ok(TargetMode::External),
            _ => Err(Refusal::BadRelationshipField),
        }
    }
}

// Judges a target by its mode. A source above 255 bytes is no part name; else it is not judged.
pub fn check_target(mode: TargetMode, source: &[u8], target: &[u8]) -> Result<(), Refusal>
    ensures { number_of result ≡ target_refusal_from (mode_number mode) source.now target.now }
{
    if 255 < source.len() {
        return Err(Refusal::NotAPartName);
    }
    match mode {
        TargetMode::Internal => {
            let mut scratch = [0; 512];
            resolve_name(source, target, &mut scratch)?;
            Ok(())
        }
        TargetMode::External => {
            if is_iri(target) {
                return Ok(());
            }
            Err(Refusal::BadTarget)
        }
    }
}

// The same by the mode's number: 0 is internal, any other external.
pub fn check_target_by(mode: u8, source: &[u8], target: &[u8]) -> Result<(), Refusal>
    ensures { number_of result ≡ target_refusal_from mode source.now target.now }
{
    if mode == 0 {
        return check_target(TargetMode::Internal, source, target);
    }
    check_target(TargetMode::External, source, target)
}
