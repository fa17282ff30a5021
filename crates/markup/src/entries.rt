// The entries of a stream: what the tags of Defaults, Overrides and Relationships say; and the tag of the root.
ghost use Rattle.std.specs.Prelude.{◌≡◌, ◌+◌, ◌≤◌, length, drop, IfSome};
ghost use Rattle.chars.specs.Lists.{same};
ghost use Rattle.markup.specs.Tags.{attributes_at, attribute_named};
ghost use Rattle.markup.specs.Entries.{value_in, mode_of, root_name};
ghost use Rattle.markup.specs.Streams.{is_namespace};
ghost use Rattle.markup.specs.Walks.{Reached};
ghost use Rattle.markup.specs.EntryPlaces.{of_value, given_at, mode_number, ValueWithin, Valued, typed_entry, related_entry, Entering, EntryAt, RootAt};

use crate::attributes::{count_own, find_attribute};
use crate::decoding::means;
use chars::texts::is_same;

// The streams that are read.
#[derive(Clone, Copy)]
pub enum Kind {
    Types,
    Relationships,
}

// Where a value stands between its quote marks.
#[derive(Clone, Copy)]
pub(crate) struct Value {
    pub from: usize,
    pub to: usize,
}

// What a TargetMode tells. The numbers are those of the modes, and 2, which is none.
#[derive(Clone, Copy)]
pub enum Mode {
    Internal = 0,
    External = 1,
    Neither = 2,
}

impl Mode {
    pub fn number(self) -> u8
        ensures { result ≡ mode_number self }
    {
        self as u8
    }
}

// Where the values of an entry stand: those of a Default or an Override, or of a Relationship.
#[derive(Clone, Copy)]
pub(crate) enum Entered {
    Typed {
        default: bool,
        key: Value,
        media: Value,
    },
    Related {
        id: Value,
        iri: Value,
        mode: Mode,
        target: Value,
    },
}

// The value of an attribute among the first `count` from `at` on.
fn find_value(s: &[u8], at: usize, count: usize, wanted: &[u8]) -> Option<Value>
    requires { at ≤ length s.now }
    ensures { Valued s.now (value_in (attribute_named wanted.now (attributes_at count (drop at s.now)))) result }
{
    let a = find_attribute(s, at, count, wanted)?;
    Some(Value {
        from: a.from,
        to: a.to,
    })
}

// The mode that a TargetMode tells.
fn mode_of(s: &[u8], v: Option<Value>) -> Mode
    requires { IfSome v (ValueWithin s.now) }
    ensures { mode_number result ≡ mode_of (of_value s.now v) }
{
    let Some(v) = v else {
        return Mode::Internal;
    };
    if means(&s[v.from..v.to], b"Internal") {
        return Mode::Internal;
    }
    if means(&s[v.from..v.to], b"External") {
        return Mode::External;
    }
    Mode::Neither
}

// How many attributes a Relationship has that count: three, and perhaps a TargetMode.
fn related_count(mode: Option<Value>) -> usize
    ensures { result ≡ 3 + given_at mode }
{
    match mode {
        Some(_) => 4,
        None => 3,
    }
}

// A Default's extension or an Override's part name, and the media type: these and no other attribute that counts.
fn typed(s: &[u8], at: usize, count: usize, default: bool, wanted: &[u8]) -> Option<Entered>
    requires { at ≤ length s.now }
    ensures { Entering s.now (typed_entry default wanted.now (attributes_at count (drop at s.now))) result }
{
    if count_own(s, at, count) != 2 {
        return None;
    }
    let key = find_value(s, at, count, wanted)?;
    let media = find_value(s, at, count, b"ContentType")?;
    Some(Entered::Typed {
        default,
        key,
        media,
    })
}

// A Relationship's values: these and no other attribute that counts.
fn related(s: &[u8], at: usize, count: usize) -> Option<Entered>
    requires { at ≤ length s.now }
    ensures { Entering s.now (related_entry (attributes_at count (drop at s.now))) result }
{
    let mode = find_value(s, at, count, b"TargetMode");
    if count_own(s, at, count) != related_count(mode) {
        return None;
    }
    let id = find_value(s, at, count, b"Id")?;
    let iri = find_value(s, at, count, b"Type")?;
    let target = find_value(s, at, count, b"Target")?;
    Some(Entered::Related {
        id,
        iri,
        mode: mode_of(s, mode),
        target,
    })
}

// The entry that the tag makes whose name stands from `at` to `end`, with `count` attributes.
pub(crate) fn entry_of(kind: Kind, s: &[u8], at: usize, end: usize, count: usize) -> Option<Entered>
    requires { Reached s.now at end }
    ensures { EntryAt kind s.now at end count result }
{
    match kind {
        Kind::Types => {
            if is_same(&s[at..end], b"Default") {
                return typed(s, end, count, true, b"Extension");
            }
            if is_same(&s[at..end], b"Override") {
                return typed(s, end, count, false, b"PartName");
            }
            None
        }
        Kind::Relationships => {
            if is_same(&s[at..end], b"Relationship") {
                return related(s, end, count);
            }
            None
        }
    }
}

fn is_root_name(kind: Kind, name: &[u8]) -> bool
    ensures { result ≡ same name.now (root_name kind) }
{
    match kind {
        Kind::Types => is_same(name, b"Types"),
        Kind::Relationships => is_same(name, b"Relationships"),
    }
}

fn is_namespace(kind: Kind, s: &[u8], v: Option<Value>) -> bool
    requires { IfSome v (ValueWithin s.now) }
    ensures { result ≡ is_namespace kind (of_value s.now v) }
{
    let Some(v) = v else {
        return false;
    };
    match kind {
        Kind::Types => means(
            &s[v.from..v.to],
            b"http://schemas.openxmlformats.org/package/2006/content-types",
        ),
        Kind::Relationships => means(
            &s[v.from..v.to],
            b"http://schemas.openxmlformats.org/package/2006/relationships",
        ),
    }
}

// Whether the tag whose name stands from `at` to `end`, with `count` attributes, is that of the root.
pub(crate) fn is_root(kind: Kind, s: &[u8], at: usize, end: usize, count: usize) -> bool
    requires { Reached s.now at end }
    ensures { RootAt kind s.now at end count result }
{
    if !is_root_name(kind, &s[at..end]) {
        return false;
    }
    if count_own(s, end, count) != 1 {
        return false;
    }
    is_namespace(kind, s, find_value(s, end, count, b"xmlns"))
}
