// Pack IRIs.
ghost use Rattle.std.specs.Prelude.{◌≡◌, ◌++◌, ◌+◌, ◌≤◌, ◌||◌, Some, None, cond, length};
ghost use Rattle.chars.specs.Bytes.{ascii};
ghost use Rattle.chars.specs.Classes.{classes};
ghost use Rattle.chars.specs.Lists.{is_empty};
ghost use Rattle.chars.specs.Characters.{stands};
ghost use Rattle.chars.specs.Folding.{equivalent};
ghost use Rattle.pack.specs.Pack.{escape, escaped, pack_iri, part_or_root, compose as composed, slashed, low_triplet, unfragmented_iri, part_of, resolve_pack, of_resolved, located};
ghost use Rattle.output.specs.Answers.{of_written, written};
ghost use Rattle.output.specs.Sends.{Sent, Fitted};
ghost use Rattle.pack.specs.Scratch.{AuthorityAt, PlacedAs, Decoded};

use base::bytes::byte_at;
use chars::folding::is_equivalent;
use chars::search::{find, has_no};
use chars::texts::is_root;
use chars::units::hex_value;
use iri::split::split;
use names::iris::is_package_iri;
use names::parts::is_part_name;
use names::table::{is_hex_digit, table};
use output::refusals::{Refusal, Unwritten};
use output::writing::emit;

fn is_part_or_root(n: &[u8]) -> bool
    ensures { result ≡ part_or_root n.now }
{
    is_root(n) | is_part_name(n)
}

fn put_escape(out: &mut [u8], at: usize, b: u8) -> usize
    requires { at ≤ 65536 }
    ensures { Sent out.old at (escape b) result out.new }
{
    match b {
        b'%' => emit(out, at, b"%25"),
        b'?' => emit(out, at, b"%3F"),
        b'@' => emit(out, at, b"%40"),
        b':' => emit(out, at, b"%3A"),
        b',' => emit(out, at, b"%2C"),
        b'/' => emit(out, at, b","),
        _ => emit(out, at, &[b]),
    }
}

fn put_escaped(s: &[u8], out: &mut [u8], from: usize) -> usize
    requires { (from ≤ 1024) × (length s.now ≤ 4096) }
    ensures { Sent out.old from (escaped s.now) result out.new }
{
    let mut at = from;
    for &b in s {
        at = put_escape(out, at, b);
    }
    at
}

// pack:// and the authority, from a package IRI without its fragment.
fn put_authority(p: &[u8], out: &mut [u8]) -> usize
    requires { length p.now ≤ 4096 }
    ensures { Sent out.old 0 (ascii "pack://" ++ escaped p.now) result out.new }
{
    let at = emit(out, 0, b"pack://");
    put_escaped(p, out, at)
}

// The path, into the rest of the output.
fn put_path(path: &[u8], rest: &mut [u8])
    requires { length path.now ≤ 65536 }
    ensures { Sent rest.old 0 path.now (length path.now) rest.new }
{
    emit(rest, 0, path);
}

// Writes the pack IRI of a package IRI and a path, which both are judged, where all of it fits. Its length.
pub fn put_pack_iri(p: &[u8], path: &[u8], out: &mut [u8]) -> usize
    requires { (length p.now ≤ 255) × (length path.now ≤ 511) }
    ensures { Fitted out.old (pack_iri p.now path.now) result out.new }
{
    let k = find(p, 0, b'#');
    let a = put_authority(&p[..k], &mut out[..0]);
    let need = a + path.len();
    if out.len() < need {
        return need;
    }
    put_authority(&p[..k], out);
    put_path(path, &mut out[a..]);
    need
}

// The pack IRI of a package IRI and a part name, or / for the package.
pub fn compose(p: &[u8], n: &[u8], out: &mut [u8]) -> Result<usize, Unwritten>
    ensures { of_written result out.new ≡ written (composed p.now n.now) out.old }
{
    if !is_package_iri(p) {
        return Err(Unwritten::Refused(Refusal::BadTarget));
    }
    if !is_part_or_root(n) {
        return Err(Unwritten::Refused(Refusal::NotAPartName));
    }
    let need = put_pack_iri(p, n, out);
    if out.len() < need {
        return Err(Unwritten::TooShort(need));
    }
    Ok(need)
}

// What a pack IRI stands for: the lengths of the package IRI and of the part name, which is none for the package itself.
#[derive(Clone, Copy)]
pub struct Resolved {
    pub package: usize,
    pub part: usize,
}

// Where the authority stands.
#[derive(Clone, Copy)]
struct Place {
    from: usize,
    to: usize,
}

fn slash(b: u8) -> u8
    ensures { result ≡ slashed b }
{
    if b == b',' {
        return b'/';
    }
    b
}

// What a triplet below %80 stands for, if a b c is one.
fn low_triplet(t: &[u8; 256], a: u8, b: u8, c: u8) -> Option<u8>
    requires { t.now ≡ classes }
    ensures { result ≡ cond (low_triplet a b c) (Some (stands b c)) None }
{
    if (a == b'%') & is_hex_digit(t, b) & is_hex_digit(t, c) {
        let v = 16 * hex_value(b) + hex_value(c);
        if v < 128 {
            return Some(v);
        }
    }
    None
}

fn decode_by(t: &[u8; 256], s: &[u8], out: &mut [u8]) -> usize
    requires { (t.now ≡ classes) × (length s.now ≤ length out.old) × (length s.now ≤ 4096) }
    ensures { Decoded s.now result out.new }
{
    let mut i = 0;
    let mut o = 0;
    // a triplet takes three bytes at once, any other byte one: no step of an iterator
    while i < s.len() {
        let a = slash(byte_at(s, i));
        let b = slash(byte_at(s, i + 1));
        let c = slash(byte_at(s, i + 2));
        let (v, k) = match low_triplet(t, a, b, c) {
            Some(v) => (v, 3),
            None => (a, 1),
        };
        out[o] = v;
        i += k;
        o += 1;
    }
    o
}

// Writes the package IRI that an authority stands for to the start of out, and says its length. What follows it in out is scratch.
fn decode(s: &[u8], out: &mut [u8]) -> usize
    requires { (length s.now ≤ length out.old) × (length s.now ≤ 4096) }
    ensures { Decoded s.now result out.new }
{
    let t = table();
    decode_by(&t, s, out)
}

fn is_pack(s: &[u8]) -> bool
    ensures { result ≡ equivalent s.now (ascii "pack:") }
{
    is_equivalent(s, b"pack:")
}

// Empty, / or a part name.
fn is_path(p: &[u8]) -> bool
    ensures { result ≡ (is_empty p.now || part_or_root p.now) }
{
    p.is_empty() | is_part_or_root(p)
}

fn is_unfragmented(p: &[u8]) -> bool
    ensures { result ≡ unfragmented_iri p.now }
{
    is_package_iri(p) & has_no(p, b'#')
}

fn place_of(s: &[u8]) -> Option<Place>
    ensures { PlacedAs s.now result }
{
    let x = split(s);
    let a = x.scheme;
    let b = x.authority;
    let p = x.path;
    if !is_pack(&s[..a]) {
        return None;
    }
    if b == a {
        return None;
    }
    if 767 < b - a {
        return None;
    }
    if p != s.len() {
        return None;
    }
    if !is_path(&s[b..]) {
        return None;
    }
    Some(Place { from: a + 2, to: b })
}

// The length of the part name of a path.
fn part_len(p: &[u8]) -> usize
    ensures { result ≡ length (part_of p.now) }
{
    if is_root(p) {
        return 0;
    }
    p.len()
}

// The path stands after the authority.
fn resolve_at(s: &[u8], place: Place, out: &mut [u8]) -> Result<Resolved, Unwritten>
    requires { AuthorityAt s.now place.from place.to }
    ensures { of_resolved result out.new ≡ located (resolve_pack s.now) out.old }
{
    let mut package = [0; 765];
    let k = decode(&s[place.from..place.to], &mut package);
    if !is_unfragmented(&package[..k]) {
        return Err(Unwritten::Refused(Refusal::BadTarget));
    }
    let m = part_len(&s[place.to..]);
    let e = place.to + m;
    let need = k + m;
    if out.len() < need {
        return Err(Unwritten::TooShort(need));
    }
    let at = emit(out, 0, &package[..k]);
    emit(out, at, &s[place.to..e]);
    Ok(Resolved {
        package: k,
        part: m,
    })
}

// The package IRI and the part name that a pack IRI stands for, one after the other.
pub fn resolve_pack(s: &[u8], out: &mut [u8]) -> Result<Resolved, Unwritten>
    ensures { of_resolved result out.new ≡ located (resolve_pack s.now) out.old }
{
    let Some(place) = place_of(s) else {
        return Err(Unwritten::Refused(Refusal::BadTarget));
    };
    resolve_at(s, place, out)
}
