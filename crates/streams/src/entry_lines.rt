// The lines of an XML stream. Each function sends its text to a place of the output and says the next place, whether it fits or not.
ghost use Rattle.std.specs.Prelude.{◌++◌, ◌+◌, ◌*◌, ◌^◌, ◌≤◌, ◌<◌, length};
ghost use Rattle.chars.specs.Bytes.{ascii};
ghost use Rattle.output.specs.Sends.{Sent};
ghost use Rattle.model.specs.Texts.{quoted};
ghost use Rattle.streams.specs.EntryLines.{type_text, mode_end, relationship_text};

use chars::search::find;
use contract::EXTERNAL_TAG;
use output::writing::emit;

// A stretch of a value, and the & that ends it.
fn put_stretch(out: &mut [u8], at: usize, s: &[u8]) -> usize
    requires { (at ≤ 2 ^ 55) × (length s.now < 2 ^ 32) }
    ensures { Sent out.old at (s.now ++ ascii "&amp;") result out.new }
{
    let next = emit(out, at, s);
    emit(out, next, b"&amp;")
}

// A value as it stands in quotes, stretch by stretch.
fn put_quoted(out: &mut [u8], from: usize, s: &[u8]) -> usize
    requires { (from ≤ 2 ^ 54) × (length s.now < 2 ^ 32) }
    ensures sent { Sent out.old from (quoted s.now) result out.new }
    ensures upper_bound { result ≤ from + 5 * length s.now }
{
    let mut at = from;
    let mut i = 0;
    let mut k = find(s, 0, b'&');
    while k < s.len() {
        at = put_stretch(out, at, &s[i..k]);
        i = k + 1;
        k = find(s, i, b'&');
    }
    emit(out, at, &s[i..])
}

// The line of a Default or an Override: how it begins, then its key and its media type.
pub(crate) fn put_type_line(
    out: &mut [u8],
    at: usize,
    head: &[u8],
    key: &[u8],
    media: &[u8],
) -> usize
    requires { (at ≤ 2 ^ 53) × (length head.now ≤ 100) × (length key.now < 2 ^ 32) × (length media.now < 2 ^ 32) }
    ensures { Sent out.old at (type_text head.now key.now media.now) result out.new }
{
    let a = emit(out, at, head);
    let b = put_quoted(out, a, key);
    let c = emit(out, b, b"\" ContentType=\"");
    let d = put_quoted(out, c, media);
    emit(out, d, b"\"/>\n")
}

// How the line of a relationship with this tag ends, from the quote that ends its target on.
fn put_mode(out: &mut [u8], at: usize, tag: usize) -> usize
    requires { at ≤ 2 ^ 55 }
    ensures { Sent out.old at (mode_end tag) result out.new }
{
    if tag == EXTERNAL_TAG {
        return emit(out, at, b"\" TargetMode=\"External\"/>\n");
    }
    emit(out, at, b"\"/>\n")
}

// The line of a relationship with this tag.
pub(crate) fn put_relationship_line(
    out: &mut [u8],
    at: usize,
    tag: usize,
    id: &[u8],
    kind: &[u8],
    target: &[u8],
) -> usize
    requires { (at ≤ 2 ^ 53) × (length id.now < 2 ^ 32) × (length kind.now < 2 ^ 32) × (length target.now < 2 ^ 32) }
    ensures { Sent out.old at (relationship_text tag id.now kind.now target.now) result out.new }
{
    let a = emit(out, at, b"<Relationship Id=\"");
    let b = put_quoted(out, a, id);
    let c = emit(out, b, b"\" Type=\"");
    let d = put_quoted(out, c, kind);
    let e = emit(out, d, b"\" Target=\"");
    let f = put_quoted(out, e, target);
    put_mode(out, f, tag)
}
