// Where the bytes of an item lie in the package: for callers that cannot be handed a part of a slice. `&s[..]` for `s`: docs/DECISIONS.md, Slices handed on.
ghost use Rattle.items.specs.Spans.{Viewed};

use crate::wanted::{asked, item_row};
use contract::gate::check_package;
use store::header::count;
use store::rows::{Span, field_place};

// A view by its place in the package.
pub fn view_place(pkg: &[u8], name: &[u8]) -> Span
    ensures { Viewed name.now pkg.now result.at result.length }
{
    if check_package(pkg).is_err() {
        return Span { at: 0, length: 0 };
    }
    let Ok(wanted) = asked(name) else {
        return Span { at: 0, length: 0 };
    };
    let r = item_row(&pkg[..], name, wanted.prefix, wanted.tag);
    if r < count(pkg) {
        return field_place(pkg, r, 2);
    }
    Span { at: 0, length: 0 }
}
