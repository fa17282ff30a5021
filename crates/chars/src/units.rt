// What texts are made of: units, by two grammars, and the value of a hex digit.
ghost use Rattle.std.specs.Prelude.{◌≡◌};
ghost use Rattle.chars.specs.Bytes.{hex_value};

// Whose units they are.
#[derive(Clone, Copy)]
pub enum Grammar {
    Segment,
    Iri,
}

pub fn hex_value(b: u8) -> u8
    ensures { result ≡ hex_value b }
{
    b % 16 + 9 * (b / 64)
}
