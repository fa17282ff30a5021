// Judgements on names, types and IRIs.
ghost use Rattle.std.specs.Prelude.{◌≡◌};
ghost use Rattle.chars.specs.Folding.{equivalent, derivable, folded_order};
ghost use Rattle.names.specs.Names.{part_name, reserved, extension_at};
ghost use Rattle.names.specs.Items.{item_name};
ghost use Rattle.names.specs.Types.{media_type, extension, identifier};
ghost use Rattle.names.specs.Iris.{iri, package_iri};
ghost use Rattle.abi.specs.Replies.{reply_of, order_number, kind, item_answer};

use crate::replies::{Reply, of_refusal, three};
use chars::folding::{compare_folded, is_derivable, is_equivalent};
use names::iris::{is_iri, is_package_iri};
use names::items::{ItemName, Suffix, refusal, take_apart};
use names::parts::{extension_at, is_part_name, is_reserved};
use names::types::{is_extension, is_id, is_media_type};
use std::cmp::Ordering;

#[unsafe(no_mangle)]
pub extern "C" fn opc_is_part_name(s: &[u8]) -> bool
    ensures { result ≡ part_name s.now }
{
    is_part_name(s)
}

#[unsafe(no_mangle)]
pub extern "C" fn opc_is_reserved(s: &[u8]) -> bool
    ensures { result ≡ reserved s.now }
{
    is_reserved(s)
}

#[unsafe(no_mangle)]
pub extern "C" fn opc_extension_at(s: &[u8]) -> usize
    ensures { result ≡ extension_at s.now }
{
    extension_at(s)
}

#[unsafe(no_mangle)]
pub extern "C" fn opc_is_equivalent(a: &[u8], b: &[u8]) -> bool
    ensures { result ≡ equivalent a.now b.now }
{
    is_equivalent(a, b)
}

#[unsafe(no_mangle)]
pub extern "C" fn opc_is_derivable(a: &[u8], b: &[u8]) -> bool
    ensures { result ≡ derivable a.now b.now }
{
    is_derivable(a, b)
}

// 0 less, 1 equal, 2 greater.
#[unsafe(no_mangle)]
pub extern "C" fn opc_compare_folded(a: &[u8], b: &[u8]) -> u8
    ensures { result ≡ order_number (folded_order a.now b.now) }
{
    match compare_folded(a, b) {
        Ordering::Less => 0,
        Ordering::Equal => 1,
        Ordering::Greater => 2,
    }
}

fn suffix_kind(last: bool) -> usize
    ensures { result ≡ kind last }
{
    if last { 2 } else { 1 }
}

// The prefix's length; 0 for a whole item, 1 for a piece, 2 for the last piece; the piece's number.
#[unsafe(no_mangle)]
pub extern "C" fn opc_take_apart(s: &[u8]) -> Reply
    ensures { result ≡ reply_of (item_answer (item_name s.now)) }
{
    let name = take_apart(s);
    let ItemName::Named(n, x) = name else {
        return of_refusal(3, refusal(name).unwrap());
    };
    let Suffix::Piece(k, last) = x else {
        return three(0, n, 0, 0);
    };
    three(0, n, suffix_kind(last), k)
}

#[unsafe(no_mangle)]
pub extern "C" fn opc_is_media_type(s: &[u8]) -> bool
    ensures { result ≡ media_type s.now }
{
    is_media_type(s)
}

#[unsafe(no_mangle)]
pub extern "C" fn opc_is_extension(s: &[u8]) -> bool
    ensures { result ≡ extension s.now }
{
    is_extension(s)
}

#[unsafe(no_mangle)]
pub extern "C" fn opc_is_id(s: &[u8]) -> bool
    ensures { result ≡ identifier s.now }
{
    is_id(s)
}

#[unsafe(no_mangle)]
pub extern "C" fn opc_is_iri(s: &[u8]) -> bool
    ensures { result ≡ iri s.now }
{
    is_iri(s)
}

#[unsafe(no_mangle)]
pub extern "C" fn opc_is_package_iri(s: &[u8]) -> bool
    ensures { result ≡ package_iri s.now }
{
    is_package_iri(s)
}
