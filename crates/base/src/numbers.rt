// Numbers.
ghost use Rattle.std.specs.Prelude.{◌≡◌, min, ◌≤◌};

pub fn smaller(a: usize, b: usize) -> usize
    ensures { (result ≡ min a b) × (result ≤ a) × (result ≤ b) }
{
    a.min(b)
}
