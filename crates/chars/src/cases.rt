// How a byte is read where texts are compared: as it stands, or folded.
ghost use Rattle.std.specs.Prelude.{◌≡◌, ℕ};
ghost use Rattle.chars.specs.Folding.{lower};
ghost use Rattle.chars.specs.Comparing.{as_is, FoldsAlike, as_is_alike, lower_alike};

use crate::letters::to_lower;

pub trait Case {
    ghost read: { ℕ → ℕ };

    ghost laws: { FoldsAlike read };

    fn read(b: u8) -> u8
        ensures { result ≡ read b };
}

pub struct AsIs;

pub struct Folded;

impl Case for AsIs {
    ghost read = { as_is };

    ghost laws = { as_is_alike };

    fn read(b: u8) -> u8 {
        b
    }
}

impl Case for Folded {
    ghost read = { lower };

    ghost laws = { lower_alike };

    fn read(b: u8) -> u8 {
        to_lower(b)
    }
}
