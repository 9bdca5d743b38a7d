//! Headers, and the types of fields and payloads under them.

ghost use Rattle.std.specs.Prelude.{◌≡◌, ◌<◌, ◌≤◌, ℕ, map, option_map, length, IfSome, OnOk};
ghost use Rattle.std.specs.List.{position};
ghost use Rattle.vlt_syntax.specs.View as view;
ghost use Rattle.vlt_kinds_types.specs.Names.Globals.{names_seen};
ghost use Rattle.vlt_kinds_types.specs.Names.Refusals.{least_from, found_each};
ghost use Rattle.vlt_kinds_types.specs.Seen.{file_seen, use_seen};
ghost use Rattle.vlt_kinds_types.specs.Types as t;
ghost use Rattle.vlt_kinds_decls.specs.Decls as d;

use crate::parts::Part;
use std::alloc::{AllocError, Global};
use vlt_base::Items;
use vlt_kinds_types::{
    File, Globals, KeyUse, LeastRefusal, Sort, Wanted, rules, sort_in, ty_place, wanted_in,
};
use vlt_syntax::{HeaderKey, Name, Ty};

/// The position of a key in a header.
pub fn header_position(params: &[HeaderKey], key: &[u8]) -> Option<u8>
    requires { length params.now ≤ 32 }
    ensures position { result ≡ d.header_position (map view.header_key_of params.now) key.now }
    ensures small { IfSome result (λ i. i < 32) }
{
    for (i, param) in params.iter().enumerate() {
        if key == param.key.text.as_slice() {
            return Some(i as u8);
        }
    }
    None
}

/// What a header says of the object of a key.
pub fn wanted_of(known: &Globals<'_>, params: &[HeaderKey], key: &[u8]) -> Option<Wanted>
    ensures { result ≡ d.wanted_of (names_seen known.now)
        (map view.header_key_of params.now) key.now }
{
    for param in params {
        if key == param.key.text.as_slice() {
            return Some(wanted_in(known, &param.key_type));
        }
    }
    None
}

fn check_key_type(file: &File<'_>, key_type: &Option<Name>, found: &mut LeastRefusal)
    ensures { found.new.least ≡ least_from found.old.least
        (d.key_type_refused (file_seen file.now) (option_map view.name_of key_type.now)) }
{
    let Some(name) = key_type else {
        return;
    };
    match sort_in(file.shape_named(name)) {
        None => found.add(rules::NOT_A_TYPE, name.at.from),
        Some(sort) => found.add_if(sort.is_variant(), rules::HEADER_TYPE, name.at.from),
    }
}

#[tactic(auto, unfolding(crate::specs::Decls::header_refused))]
fn check_header_key(file: &File<'_>, param: &HeaderKey, found: &mut LeastRefusal)
    ensures { found.new.least ≡ least_from found.old.least
        (d.header_refused (file_seen file.now) (view.header_key_of param.now)) }
{
    check_key_type(file, &param.key_type, found)
}

/// Refuses what is no type of an object in a header.
pub fn check_header(file: &File<'_>, params: &[HeaderKey], found: &mut LeastRefusal)
    ensures { found.new.least
        ≡ found_each (d.header_refused (file_seen file.now))
        (map view.header_key_of params.now) found.old.least }
{
    for param in params {
        check_header_key(file, param, found);
    }
}

fn disagrees(has: Wanted, wants: Wanted) -> bool
    ensures { result ≡ d.disagrees has wants }
{
    match (has, wants) {
        (Wanted::Any, Wanted::OfType(_)) => true,
        (Wanted::OfType(other), Wanted::OfType(wanted)) => other != wanted,
        _ => false,
    }
}

#[tactic(auto, unfolding(crate::specs::Decls::use_refused))]
fn check_use(file: &File<'_>, params: &[HeaderKey], place: &KeyUse<'_>, found: &mut LeastRefusal)
    ensures { found.new.least ≡ least_from found.old.least
        (d.use_refused (names_seen file.now.globals) (map view.header_key_of params.now)
        (use_seen place.now)) }
{
    match wanted_of(&file.globals, params, place.key) {
        None => found.add(rules::KEY_NOT_IN_HEADER, place.at),
        Some(has) => {
            let broken = !place.tracked && disagrees(has, place.wanted);
            found.add_if(broken, rules::KEY_ARGUMENT, place.at);
        }
    }
}

fn check_uses(file: &File<'_>, params: &[HeaderKey], uses: &[KeyUse<'_>], found: &mut LeastRefusal)
    ensures { found.new.least ≡ found_each (d.use_refused (names_seen file.now.globals)
        (map view.header_key_of params.now)) (map use_seen uses.now) found.old.least }
{
    for place in uses {
        check_use(file, params, place, found);
    }
}

fn is_wrong_field(ty: &Ty, sort: Option<Sort>) -> bool
    ensures { result ≡ d.is_wrong_field (view.ty_of ty.now) sort }
{
    match (ty, sort) {
        (Ty::Tracked { .. }, _) => true,
        (Ty::Owning { .. }, Some(Sort::KeyedVariant)) => true,
        (Ty::Plain(_), Some(Sort::KeyedVariant)) => true,
        _ => false,
    }
}

fn is_wrong_payload(ty: &Ty, sort: Option<Sort>) -> bool
    ensures { result ≡ d.is_wrong_payload (view.ty_of ty.now) sort }
{
    match (ty, sort) {
        (Ty::Tracked { .. }, _) => true,
        (Ty::Owning { .. }, Some(sort)) => sort.is_variant(),
        (Ty::Plain(_), Some(_)) => true,
        _ => false,
    }
}

fn check_part(part: Part, ty: &Ty, sort: Option<Sort>, found: &mut LeastRefusal)
    ensures { found.new.least ≡ least_from found.old.least
        (d.part_refused part (view.ty_of ty.now) sort) }
{
    match part {
        Part::Field => found.add_if(is_wrong_field(ty, sort), rules::FIELD_TYPE, ty_place(ty)),
        Part::Payload => found.add_if(
            is_wrong_payload(ty, sort),
            rules::PAYLOAD_TYPE,
            ty_place(ty),
        ),
    }
}

/// Refuses what is wrong in a type that is a part of a declaration with this header.
#[tactic(auto, using(vlt_kinds_types::proofs::OfNames::Least::least_of_both, vlt_kinds_types::proofs::OfNames::Least::each_is), unfolding(crate::specs::Decls::typed_refused))]
pub fn check_typed(
    alloc: Global,
    file: &File<'_>,
    params: &[HeaderKey],
    part: Part,
    ty: &Ty,
    found: &mut LeastRefusal,
) -> Result<(), AllocError>
    ensures { OnOk result (found.new.least ≡ least_from found.old.least
        (d.typed_refused (file_seen file.now) (map view.header_key_of params.now) part
        (view.ty_of ty.now))) }
{
    file.check_type(alloc, ty, found)?;
    check_part(part, ty, sort_in(file.shape_in(ty)), found);
    let mut uses = Items::new(alloc);
    file.add_uses(ty, &mut uses)?;
    check_uses(file, params, uses.as_slice(), found);
    Ok(())
}
