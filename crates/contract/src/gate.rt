// The gate: what every call but start asks of the lent bytes before all else.
ghost use Rattle.std.specs.Prelude.{◌≡◌};
ghost use Rattle.output.specs.Refusals.{number_of};
ghost use Rattle.contract.specs.Opening.{turned_number};

use output::refusals::Refusal;
use store::header::is_package;

// Lets the bytes in where they pass the test of a package.
pub fn check_package(pkg: &[u8]) -> Result<(), Refusal>
    ensures { number_of result ≡ turned_number pkg.now }
{
    if is_package(pkg) {
        return Ok(());
    }
    Err(Refusal::NotAPackage)
}
