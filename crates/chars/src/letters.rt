// Letters of either case.
ghost use Rattle.std.specs.Prelude.{◌≡◌, eqb};
ghost use Rattle.chars.specs.Folding.{lower};

pub fn to_lower(b: u8) -> u8
    ensures { result ≡ lower b }
{
    b.to_ascii_lowercase()
}

pub fn is_same_letter(x: u8, y: u8) -> bool
    ensures { result ≡ eqb (lower x) (lower y) }
{
    x.eq_ignore_ascii_case(&y)
}
