// The Relationships part of a source, and back.
ghost use Rattle.std.specs.Prelude.{◌≡◌, true, ◌≤◌, length};
ghost use Rattle.names.specs.Names.{reserved};
ghost use Rattle.targets.specs.Relationships.{relationships_of, relationships_part, source_part};
ghost use Rattle.output.specs.Answers.{of_written, written};
ghost use Rattle.output.specs.Sends.{Sent};

use crate::targets::check_source;
use chars::search::find_past;
use names::parts::is_reserved;
use output::refusals::{Refusal, Unwritten};
use output::writing::{emit, put_text};

fn put_relationships(s: &[u8], out: &mut [u8]) -> usize
    requires { length s.now ≤ 4096 }
    ensures { Sent out.old 0 (relationships_of s.now) result out.new }
{
    let q = find_past(s, b'/');
    let a = emit(out, 0, &s[..q]);
    let b = emit(out, a, b"_rels/");
    let c = emit(out, b, &s[q..]);
    emit(out, c, b".rels")
}

// The name of the Relationships part of a source.
pub fn relationships_part(s: &[u8], out: &mut [u8]) -> Result<usize, Unwritten>
    ensures { of_written result out.new ≡ written (relationships_part s.now) out.old }
{
    check_source(s)?;
    let need = put_relationships(s, &mut out[..0]);
    if out.len() < need {
        return Err(Unwritten::TooShort(need));
    }
    Ok(put_relationships(s, out))
}

// The source, put together and judged: the segment _rels begins at p, the last one at q.
fn source_at(s: &[u8], out: &mut [u8]) -> Result<usize, Unwritten>
    requires { (reserved s.now ≡ true) × (length s.now ≤ 266) }
    ensures { of_written result out.new ≡ written (source_part s.now) out.old }
{
    let q = find_past(s, b'/');
    let g = q - 1;
    let p = find_past(&s[..g], b'/');
    let e = s.len() - 5;
    let mut source = [0; 266];
    let a = emit(&mut source, 0, &s[..p]);
    let k = emit(&mut source, a, &s[q..e]);
    if check_source(&source[..k]).is_err() {
        return Err(Unwritten::Refused(Refusal::NotAPartName));
    }
    put_text(&source[..k], out)
}

// The source whose Relationships part has that name, in either case.
pub fn source_of(s: &[u8], out: &mut [u8]) -> Result<usize, Unwritten>
    ensures { of_written result out.new ≡ written (source_part s.now) out.old }
{
    if 266 < s.len() {
        return Err(Unwritten::Refused(Refusal::NotAPartName));
    }
    if !is_reserved(s) {
        return Err(Unwritten::Refused(Refusal::NotAPartName));
    }
    source_at(s, out)
}
