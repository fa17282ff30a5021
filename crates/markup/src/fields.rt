// The fields of an entry: the first bytes that its values mean, each in an array.
ghost use Rattle.std.specs.Prelude.{◌≡◌, ◌-◌, ◌≤◌, length};
ghost use Rattle.base.specs.Buffer.{part};
ghost use Rattle.markup.specs.EntryPlaces.{field_size, ValueWithin, Decoded};
ghost use Rattle.markup.specs.FieldPlaces.{TypedAt, RelatedAt};

use crate::decoding::{FIELD_SIZE, decode};
use crate::entries::{Entered, Kind, Mode, Value};
use crate::pieces::entry_at;

// A Default's extension or an Override's part name, and the media type, by their lengths.
#[derive(Clone, Copy)]
pub struct TypedFields {
    pub default: bool,
    pub key: usize,
    pub media: usize,
}

// A Relationship's id, type, mode and target, texts by their lengths.
#[derive(Clone, Copy)]
pub struct RelatedFields {
    pub id: usize,
    pub iri: usize,
    pub mode: Mode,
    pub target: usize,
}

// The first bytes that a value means; how many these are.
fn field(s: &[u8], v: Value, out: &mut [u8; FIELD_SIZE]) -> usize
    requires { ValueWithin s.now v × (length out.old ≡ field_size) }
    ensures { Decoded (part v.from (v.to - v.from) s.now) out.new result }
{
    decode(&s[v.from..v.to], out)
}

// The fields of the Default or Override whose tag's name begins at `at`.
pub fn typed_fields(
    s: &[u8],
    at: usize,
    key: &mut [u8; FIELD_SIZE],
    media: &mut [u8; FIELD_SIZE],
) -> Option<TypedFields>
    requires { (at ≤ length s.now) × (length key.old ≡ field_size) × (length media.old ≡ field_size) }
    ensures { TypedAt s.now at key.new media.new result }
{
    match entry_at(Kind::Types, s, at)? {
        Entered::Typed {
            default,
            key: k,
            media: m,
        } => Some(TypedFields {
            default,
            key: field(s, k, key),
            media: field(s, m, media),
        }),
        Entered::Related { .. } => None,
    }
}

// The fields of the Relationship whose tag's name begins at `at`.
pub fn related_fields(
    s: &[u8],
    at: usize,
    id: &mut [u8; FIELD_SIZE],
    iri: &mut [u8; FIELD_SIZE],
    target: &mut [u8; FIELD_SIZE],
) -> Option<RelatedFields>
    requires { (at ≤ length s.now) × (length id.old ≡ field_size) × (length iri.old ≡ field_size) × (length target.old ≡ field_size) }
    ensures { RelatedAt s.now at id.new iri.new target.new result }
{
    match entry_at(Kind::Relationships, s, at)? {
        Entered::Related {
            id: name,
            iri: kind,
            mode,
            target: place,
        } => Some(RelatedFields {
            id: field(s, name, id),
            iri: field(s, kind, iri),
            mode,
            target: field(s, place, target),
        }),
        Entered::Typed { .. } => None,
    }
}
