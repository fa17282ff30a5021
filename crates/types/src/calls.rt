// The calls on Defaults and Overrides.
ghost use Rattle.std.specs.Prelude.{◌≡◌};
ghost use Rattle.model.specs.Fields.{extension_field, part_field, type_field, default_fields, override_fields};
ghost use Rattle.model.specs.Calls.{Call, Change};
ghost use Rattle.output.specs.Refusals.{number_of};
ghost use Rattle.contract.specs.Answers.{of_done};
ghost use Rattle.contract.specs.Ran.{Ran};

use contract::entries::{drop_row, put_row};
use contract::gate::check_package;
use contract::{DEFAULT_LIMIT, DEFAULT_TAG, DEFAULTS, OVERRIDE_LIMIT, OVERRIDE_TAG, OVERRIDES};
use names::parts::is_part_name;
use names::types::{is_extension, is_media_type};
use output::refusals::Refusal;

// Judges an extension.
fn check_extension(extension: &[u8]) -> Result<(), Refusal>
    ensures { number_of result ≡ extension_field extension.now }
{
    if is_extension(extension) {
        return Ok(());
    }
    Err(Refusal::BadType)
}

// Judges a part name.
fn check_name(name: &[u8]) -> Result<(), Refusal>
    ensures { number_of result ≡ part_field name.now }
{
    if is_part_name(name) {
        return Ok(());
    }
    Err(Refusal::NotAPartName)
}

// Judges a media type.
fn check_type(media: &[u8]) -> Result<(), Refusal>
    ensures { number_of result ≡ type_field media.now }
{
    if is_media_type(media) {
        return Ok(());
    }
    Err(Refusal::BadType)
}

// Judges a Default's fields.
pub fn check_default(extension: &[u8], media: &[u8]) -> Result<(), Refusal>
    ensures { number_of result ≡ default_fields extension.now media.now }
{
    check_extension(extension)?;
    check_type(media)
}

// Judges an Override's fields.
pub fn check_override(name: &[u8], media: &[u8]) -> Result<(), Refusal>
    ensures { number_of result ≡ override_fields name.now media.now }
{
    check_name(name)?;
    check_type(media)
}

// A put and a drop of either set have their own judges and promises; one function over the set would be as long as each.
pub fn put_default(pkg: &mut [u8], extension: &[u8], media: &[u8]) -> Result<(), Refusal>
    ensures { Ran (Call.Changes (Change.PutDefault extension.now media.now)) pkg.old (of_done result) pkg.new }
{
    check_package(pkg)?;
    check_default(extension, media)?;
    put_row(
        pkg,
        Ok(()),
        DEFAULT_LIMIT,
        DEFAULT_TAG,
        extension,
        media,
        b"",
        b"",
    )
}

pub fn drop_default(pkg: &mut [u8], extension: &[u8]) -> Result<(), Refusal>
    ensures { Ran (Call.Changes (Change.DropDefault extension.now)) pkg.old (of_done result) pkg.new }
{
    check_package(pkg)?;
    check_extension(extension)?;
    drop_row(pkg, DEFAULTS, extension, b"")
}

pub fn put_override(pkg: &mut [u8], name: &[u8], media: &[u8]) -> Result<(), Refusal>
    ensures { Ran (Call.Changes (Change.PutOverride name.now media.now)) pkg.old (of_done result) pkg.new }
{
    check_package(pkg)?;
    check_override(name, media)?;
    put_row(
        pkg,
        Ok(()),
        OVERRIDE_LIMIT,
        OVERRIDE_TAG,
        name,
        media,
        b"",
        b"",
    )
}

pub fn drop_override(pkg: &mut [u8], name: &[u8]) -> Result<(), Refusal>
    ensures { Ran (Call.Changes (Change.DropOverride name.now)) pkg.old (of_done result) pkg.new }
{
    check_package(pkg)?;
    check_name(name)?;
    drop_row(pkg, OVERRIDES, name, b"")
}
