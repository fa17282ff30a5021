// Worked lists of calls: what the last one answers follows from the theorem over every list. Every call of the ledger stands in one of them.
#![tactic(auto)]

ghost use Rattle.std.specs.Prelude.{◌≡◌, true, ◌≤◌, length, Ok};
ghost use Rattle.chars.specs.Bytes.{ascii};
ghost use Rattle.names.specs.Iris.{package_iri};
ghost use Rattle.output.specs.Answers.{of_written};
ghost use Rattle.pack.specs.Pack.{unfragmented, pack_iri, part_or_root, part_of, Found as FoundAt, of_resolved, located};
ghost use Rattle.relationships.specs.Resolutions.{of_resolution};
ghost use Rattle.types.specs.TypeOrigins.{of_type_origin};
ghost use Rattle.worked.specs.Last.{led_to, wrote, by_default, tiff_type, joined_from, linked_text};

use contract::answers::Totals;
use items::calls::{drop_item, find_item, put_item, start, view_item};
use output::refusals::{Refusal, Unwritten};
use pack::pack::{Resolved, compose, resolve_pack};
use parts::positions::part_at;
use parts::reading::read_part;
use parts::totals::totals;
use pieces::cutting::cut_part;
use pieces::joining::join_part;
use reading::calls::{read_relationships, read_types};
use relationships::calls::{drop_relationship, put_relationship};
use relationships::resolving::{Resolution, resolve_relationship};
use streams::calls::{write_relationships, write_types};
use types::calls::{drop_default, drop_override, put_default, put_override};
use types::media::media_type;
use types::origin::{TypeOrigin, type_origin};

// A tile is put, the same name in capitals is refused, pieces of another tile follow: the first tile is found, five bytes long.
fn worked(p: &mut [u8]) -> Result<usize, Refusal>
    requires { 33000 ≤ length p.old }
    ensures { result ≡ Ok 5 }
{
    let _ = start(p, 100);
    let _ = put_item(p, b"/a.xml", b"hello");
    let _ = put_item(p, b"/A.XML", b"other");
    let _ = put_item(p, b"/b/[0].piece", b"ab");
    find_item(p, b"/A.XML")
}

// The marked example of resolving: from a count sheet, with its source asked in capitals, to a tile that is held.
fn led(p: &mut [u8], types: &mut [u8], out: &mut [u8]) -> Result<Resolution, Unwritten>
    requires { (33000 ≤ length p.old) × (48 ≤ length out.old) }
    ensures { of_resolution result out.new ≡ led_to out.old }
{
    let _ = start(p, 200);
    let _ = put_default(p, b"xml", b"text/xml");
    let _ = put_item(p, b"/foo/b.xml", b"tile");
    let _ = put_relationship(p, b"/foo/test.xml", b"r1", b"a:tile", 0, b"b.xml");
    let _ = write_types(p, types);
    resolve_relationship(
        p,
        b"/FOO/TEST.xml",
        b"r1",
        b"http://www.example.com/ex.opc",
        out,
    )
}

// Of two tiles and a Default, one tile and the Default are dropped: one item, one part, and the charge of that item.
fn counted(p: &mut [u8]) -> Result<Totals, Refusal>
    requires { 33000 ≤ length p.old }
    ensures { result ≡ Ok (record { items = 1; parts = 1; charge = 11 }) }
{
    let _ = start(p, 100);
    let _ = put_item(p, b"/a.tif", b"tile");
    let _ = put_item(p, b"/b.tif", b"other");
    let _ = put_default(p, b"tif", b"image/tiff");
    let _ = drop_item(p, b"/A.TIF");
    let _ = drop_default(p, b"TIF");
    totals(p)
}

// Two types streams and one of relationships are read. The second is refused, for its Default in capitals is held, and its first is not put
// in either: the charge is that of the tile, of one Default and of the relationship.
fn received(p: &mut [u8]) -> Result<Totals, Refusal>
    requires { 33000 ≤ length p.old }
    ensures { result ≡ Ok (record { items = 1; parts = 1; charge = 42 }) }
{
    let _ = start(p, 100);
    let _ = put_item(p, b"/a.tif", b"tile");
    let _ = read_types(
        p,
        b"<Types xmlns='http://schemas.openxmlformats.org/package/2006/content-types'><Default Extension='tif' ContentType='image/tiff'/></Types>",
    );
    let _ = read_types(
        p,
        b"<Types xmlns='http://schemas.openxmlformats.org/package/2006/content-types'><Default Extension='x' ContentType='y/z'/><Default Extension='TIF' ContentType='y/z'/></Types>",
    );
    let _ = read_relationships(
        p,
        b"/A.TIF",
        b"<Relationships xmlns='http://schemas.openxmlformats.org/package/2006/relationships'><Relationship Id='r1' Type='a:tile' Target='b.tif'/></Relationships>",
    );
    totals(p)
}

// An Override is put and dropped: the Default tells the tile's media type again.
fn typed(p: &mut [u8], out: &mut [u8]) -> Result<usize, Unwritten>
    requires { (33000 ≤ length p.old) × (10 ≤ length out.old) }
    ensures { of_written result out.new ≡ wrote tiff_type out.old }
{
    let _ = start(p, 100);
    let _ = put_item(p, b"/a.tif", b"tile");
    let _ = put_default(p, b"tif", b"image/tiff");
    let _ = put_override(p, b"/A.TIF", b"image/png");
    let _ = drop_override(p, b"/a.TIF");
    media_type(p, b"/A.tif", out)
}

// How the type was arrived at is asked while the Override is held, and when it is dropped: then the Default is named, as it was put.
fn argued(p: &mut [u8], earlier: &mut [u8], out: &mut [u8]) -> Result<TypeOrigin, Unwritten>
    requires { (33000 ≤ length p.old) × (3 ≤ length out.old) }
    ensures { of_type_origin result out.new ≡ by_default (ascii "Tif") out.old }
{
    let _ = start(p, 100);
    let _ = put_item(p, b"/a.tif", b"tile");
    let _ = put_default(p, b"Tif", b"image/tiff");
    let _ = put_override(p, b"/A.TIF", b"image/png");
    let _ = type_origin(p, b"/a.tif", earlier);
    let _ = drop_override(p, b"/a.tif");
    type_origin(p, b"/A.tif", out)
}

// The last piece comes first, and in capitals: from offset 1 on the part is read over both.
fn joined(p: &mut [u8], name: &mut [u8], out: &mut [u8]) -> Result<usize, Unwritten>
    requires { (33000 ≤ length p.old) × (3 ≤ length out.old) }
    ensures { of_written result out.new ≡ wrote joined_from out.old }
{
    let _ = start(p, 100);
    let _ = put_item(p, b"/T/[1].LAST.piece", b"cd");
    let _ = put_item(p, b"/t/[0].piece", b"ab");
    let _ = part_at(p, 0, name);
    read_part(p, b"/T", 1, out)
}

// A tile is cut, joined and cut again, by other spellings of its name: of seven bytes the second of two pieces has three.
fn recut(p: &mut [u8]) -> Result<usize, Refusal>
    requires { 33000 ≤ length p.old }
    ensures { result ≡ Ok 3 }
{
    let _ = start(p, 100);
    let _ = put_item(p, b"/T.tif", b"abcdefg");
    let _ = cut_part(p, b"/t.TIF", 3);
    let _ = join_part(p, b"/T.TIF");
    let _ = cut_part(p, b"/t.tif", 2);
    find_item(p, b"/T.Tif/[1].LAST.piece")
}

// Another spelling of the tile's name is refused, and a name that grows out of it: the tile is viewed as it was put.
fn viewed(p: &mut [u8]) -> &[u8]
    requires { 33000 ≤ length p.old }
    ensures { result.now ≡ ascii "hello" }
{
    let _ = start(p, 100);
    let _ = put_item(p, b"/a", b"hello");
    let _ = put_item(p, b"/A", b"other");
    let _ = put_item(p, b"/a/b", b"grown");
    let t = &p[..];
    view_item(t, b"/A")
}

// Of two relationships one is dropped, by another spelling of their source: the other is written.
fn linked(p: &mut [u8], out: &mut [u8]) -> Result<usize, Unwritten>
    requires { (33000 ≤ length p.old) × (218 ≤ length out.old) }
    ensures { of_written result out.new ≡ wrote linked_text out.old }
{
    let _ = start(p, 100);
    let _ = put_relationship(p, b"/s", b"r1", b"a:tile", 0, b"t");
    let _ = put_relationship(p, b"/s", b"r2", b"a:tile", 1, b"u&v");
    let _ = drop_relationship(p, b"/S", b"r1");
    write_relationships(p, b"/S", out)
}

// A pack IRI is composed and resolved: back come the package IRI without its fragment, and the part name.
fn returned(
    base: &[u8],
    name: &[u8],
    text: &mut [u8],
    out: &mut [u8],
) -> Result<Resolved, Unwritten>
    requires { (package_iri base.now ≡ true) × (part_or_root name.now ≡ true) × (length (pack_iri base.now name.now) ≤ length text.old) }
    ensures { of_resolved result out.new ≡ located (FoundAt (unfragmented base.now) (part_of name.now)) out.old }
{
    let n = compose(base, name, text)?;
    resolve_pack(&text[..n], out)
}

// The outputs of the lists are as long as what is written to them.
fn run_writers(p: &mut [u8])
    requires { 33000 ≤ length p.old }
{
    let mut types = [0u8; 300];
    let mut pack = [0u8; 48];
    let _ = led(p, &mut types, &mut pack);
    check::expect(pack[47] == b'l');
    let mut media = [0u8; 10];
    let _ = typed(p, &mut media);
    check::expect(media[9] == b'f');
    let mut earlier = [0u8; 6];
    let mut key = [0u8; 3];
    let _ = argued(p, &mut earlier, &mut key);
    check::expect(key[2] == b'f');
    let mut name = [0u8; 2];
    let mut content = [0u8; 3];
    let _ = joined(p, &mut name, &mut content);
    check::expect(content[2] == b'd');
    let mut links = [0u8; 218];
    let _ = linked(p, &mut links);
    check::expect(links[217] == b'\n');
}

fn run_readers(p: &mut [u8])
    requires { 33000 ≤ length p.old }
{
    let Ok(all) = received(p) else {
        check::expect(false);
        return;
    };
    check::expect((all.items == 1) & (all.parts == 1) & (all.charge == 42));
}

fn run_back() {
    let mut text = [0u8; 48];
    let mut back = [0u8; 39];
    let base = b"http://www.example.com/ex.opc#top";
    let _ = returned(base, b"/foo/b.xml", &mut text, &mut back);
    check::expect(back[38] == b'l');
}

fn main() {
    let mut p = [0u8; 33000];
    let Ok(n) = worked(&mut p) else {
        check::expect(false);
        return;
    };
    check::expect(n == 5);
    let Ok(m) = recut(&mut p) else {
        check::expect(false);
        return;
    };
    check::expect(m == 3);
    let Ok(all) = counted(&mut p) else {
        check::expect(false);
        return;
    };
    check::expect((all.items == 1) & (all.parts == 1) & (all.charge == 11));
    run_readers(&mut p);
    run_writers(&mut p);
    run_back();
    check::expect(viewed(&mut p).len() == 5);
}
