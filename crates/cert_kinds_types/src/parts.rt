//! What declarations break, each row by itself.

ghost use Rattle.std.specs.Prelude.{◌≡◌, map, Some, option_map};
ghost use Rattle.std.specs.List.{flat_map};
ghost use Rattle.vlt_base.specs.States.{has_state};
ghost use Rattle.vlt_core.specs.View.{program_of, ty_of, header_of, type_of, field_of, case_of, case_key_of};
ghost use Rattle.vlt_core.specs.KindedHeads as s;
ghost use Rattle.cert_kinds_types.specs.Least.{least};
ghost use Rattle.cert_kinds_types.specs.TypeRows as rows;

use crate::declared::{has_set_of, is_declared, is_keyed, is_variant};
use crate::lowest::{lesser, unless};
use crate::shapes::part_broken;
use crate::states::{declared_states_broken, states_broken};
use vlt_base::{Items, StateSet, TypeId};
use vlt_core::{CaseDecl, FieldDecl, Program, Ty, TypeDecl, rules};

fn header_type_broken(p: &Program, t: TypeId) -> Option<u8>
    ensures { result ≡ least (rows.header_type_broken (program_of p.now) (Some t.0)) }
{
    if is_declared(p, t) {
        unless(!is_variant(p, t), rules::HEADER_TYPE)
    } else {
        Some(rules::NOT_A_TYPE)
    }
}

fn header_key_broken(p: &Program, h: Option<TypeId>) -> Option<u8>
    ensures { result ≡ least (rows.header_type_broken (program_of p.now)
        (option_map (λ t. t.0) h)) }
{
    match h {
        None => None,
        Some(t) => header_type_broken(p, t),
    }
}

#[tactic(auto, using(crate::proofs::Smallest::each_more))]
fn header_broken(p: &Program, header: &[Option<TypeId>]) -> Option<u8>
    ensures { result ≡ least (s.header_broken (program_of p.now) (header_of header.now)) }
{
    let mut found = None;
    for h in header {
        found = lesser(found, header_key_broken(p, *h));
    }
    found
}

fn is_field_type(p: &Program, ty: &Ty) -> bool
    ensures { result ≡ s.is_field_type (program_of p.now) (ty_of ty.now) }
{
    match ty {
        Ty::Key(_, _, _) => false,
        Ty::Var(t, _) | Ty::OwnVar(t, _) => !is_keyed(p, *t),
        _ => true,
    }
}

#[tactic(auto, using(crate::proofs::Smallest::joined))]
fn field_broken(p: &Program, t: TypeId, header: &[Option<TypeId>], d: &FieldDecl) -> Option<u8>
    ensures { result ≡ least (s.field_broken (program_of p.now) t.0 (header_of header.now)
        (field_of d.now)) }
{
    lesser(
        lesser(part_broken(p, header, &d.ty), states_broken(p, t, d.states)),
        unless(is_field_type(p, &d.ty), rules::FIELD_TYPE),
    )
}

#[tactic(auto, using(crate::proofs::Smallest::each_more))]
fn fields_broken(
    p: &Program,
    t: TypeId,
    header: &[Option<TypeId>],
    fields: &[FieldDecl],
) -> Option<u8>
    ensures { result ≡ least (flat_map
        (s.field_broken (program_of p.now) t.0 (header_of header.now))
        (map field_of fields.now)) }
{
    let mut found = None;
    for d in fields {
        found = lesser(found, field_broken(p, t, header, d));
    }
    found
}

fn is_payload_type(ty: &Ty) -> bool
    ensures { result ≡ s.is_payload_type (ty_of ty.now) }
{
    matches!(ty, Ty::Int | Ty::Bool | Ty::Guard(..) | Ty::Own(..))
}

#[tactic(auto, using(crate::proofs::Smallest::joined))]
fn payload_broken(p: &Program, header: &[Option<TypeId>], ty: &Ty) -> Option<u8>
    ensures { result ≡ least (rows.payload_broken (program_of p.now) (header_of header.now)
        (ty_of ty.now)) }
{
    lesser(
        part_broken(p, header, ty),
        unless(is_payload_type(ty), rules::PAYLOAD_TYPE),
    )
}

#[tactic(auto, using(crate::proofs::Smallest::each_more))]
fn payloads_broken(p: &Program, header: &[Option<TypeId>], payload: &[Ty]) -> Option<u8>
    ensures { result ≡ least (flat_map
        (rows.payload_broken (program_of p.now) (header_of header.now))
        (map ty_of payload.now)) }
{
    let mut found = None;
    for ty in payload {
        found = lesser(found, payload_broken(p, header, ty));
    }
    found
}

fn case_key_broken(p: &Program, header: &[Option<TypeId>], key: (u32, StateSet)) -> Option<u8>
    ensures { result ≡ least (s.case_key_broken (program_of p.now) (header_of header.now)
        (case_key_of key)) }
{
    match header.get(key.0 as usize) {
        None => Some(rules::CASE_KEY),
        Some(None) => Some(rules::CASE_KEY),
        Some(Some(t)) => declared_states_broken(p, *t, key.1),
    }
}

#[tactic(auto, using(crate::proofs::Smallest::each_more))]
fn case_keys_broken(p: &Program, header: &[Option<TypeId>], keys: &[(u32, StateSet)]) -> Option<u8>
    ensures { result ≡ least (flat_map
        (s.case_key_broken (program_of p.now) (header_of header.now))
        (map case_key_of keys.now)) }
{
    let mut found = None;
    for key in keys {
        found = lesser(found, case_key_broken(p, header, *key));
    }
    found
}

fn lists(keys: &[(u32, StateSet)], position: u32) -> bool
    ensures { result ≡ s.has (map (λ k. k.position) (map case_key_of keys.now)) position }
{
    for key in keys {
        if key.0 == position {
            return true;
        }
    }
    false
}

fn are_apart(keys: &[(u32, StateSet)]) -> bool
    ensures { result ≡ s.are_apart (map (λ k. k.position) (map case_key_of keys.now)) }
{
    match keys {
        [] => true,
        [key, rest @ ..] => !lists(rest, key.0) && are_apart(rest),
    }
}

/// What a case's row breaks.
#[tactic(auto, using(crate::proofs::Smallest::joined))]
pub fn case_broken(p: &Program, header: &[Option<TypeId>], d: &CaseDecl) -> Option<u8>
    ensures { result ≡ least (s.case_broken (program_of p.now) (header_of header.now)
        (case_of d.now)) }
{
    lesser(
        lesser(
            payloads_broken(p, header, d.payload.as_slice()),
            unless(are_apart(d.keys.as_slice()), rules::CASE_KEY),
        ),
        case_keys_broken(p, header, d.keys.as_slice()),
    )
}

#[tactic(auto, using(crate::proofs::Smallest::joined))]
fn struct_broken(
    p: &Program,
    t: TypeId,
    header: &[Option<TypeId>],
    release: StateSet,
    fields: &[FieldDecl],
) -> Option<u8>
    ensures { result ≡ least (rows.struct_broken (program_of p.now) t.0 (header_of header.now)
        (has_state release) (map field_of fields.now)) }
{
    lesser(
        lesser(
            lesser(
                unless(has_set_of(p, t), rules::UNKNOWN_NAME),
                header_broken(p, header),
            ),
            states_broken(p, t, release),
        ),
        fields_broken(p, t, header, fields),
    )
}

/// What a declared type's own row breaks.
pub fn type_broken(p: &Program, t: TypeId, d: &TypeDecl) -> Option<u8>
    ensures { result ≡ least (rows.own_row (program_of p.now) t.0 (type_of d.now)) }
{
    match d {
        TypeDecl::Abstract { .. } => unless(has_set_of(p, t), rules::UNKNOWN_NAME),
        TypeDecl::Struct {
            header,
            release,
            fields,
            ..
        } => struct_broken(p, t, header.as_slice(), *release, fields.as_slice()),
        TypeDecl::Variant { header, .. } => header_broken(p, header.as_slice()),
    }
}
