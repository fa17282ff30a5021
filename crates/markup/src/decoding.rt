// What a value means: its bytes, each entity being one.
ghost use Rattle.std.specs.Prelude.{◌≡◌, suc, pred, ◌+◌, ◌≤◌, ◌<◌, length, drop};
ghost use Rattle.chars.specs.Lists.{same};
ghost use Rattle.markup.specs.Marks.{value_unit, value_byte, unquoted};
ghost use Rattle.markup.specs.EntryPlaces.{field_size, Decoded};

use crate::values::{Entity, entity_at};
use chars::texts::is_same;

// How many bytes of a value are looked at: no field takes as many.
pub const FIELD_SIZE: usize = 256;

// The byte that stands at index i, or that an entity there means, and how many bytes it takes.
fn unit_at(s: &[u8], i: usize) -> Entity
    requires { i < length s.now }
    ensures { (result.length ≡ suc (pred (value_unit (drop i s.now)))) × (result.byte ≡ value_byte (drop i s.now)) × (i + result.length ≤ length s.now) }
{
    let b = s[i];
    if b == b'&' {
        return entity_at(s, i).unwrap_or(Entity { length: 1, byte: 0 });
    }
    Entity { length: 1, byte: b }
}

// The first bytes that a value means, as many as the array has; how many these are.
pub(crate) fn decode(s: &[u8], out: &mut [u8; FIELD_SIZE]) -> usize
    requires { length out.old ≡ field_size }
    ensures { Decoded s.now out.new result }
{
    let mut i = 0;
    for n in 0..FIELD_SIZE {
        if s.len() <= i {
            return n;
        }
        let u = unit_at(s, i);
        out[n] = u.byte;
        i += u.length;
    }
    FIELD_SIZE
}

// Whether a value means the bytes t.
pub(crate) fn means(s: &[u8], t: &[u8]) -> bool
    requires { length t.now < field_size }
    ensures { result ≡ same (unquoted 0 s.now) t.now }
{
    let mut field = [0u8; FIELD_SIZE];
    let n = decode(s, &mut field);
    is_same(&field[..n], t)
}
