//! A declared type by its number: its parts, and what it is.

ghost use Rattle.std.specs.Prelude.{◌≡◌, ◌&&◌, ◌||◌, nat_lt, map, length, Some, is_some};
ghost use Rattle.std.specs.Option.{option_map, option_copied};
ghost use Rattle.std.specs.List.{list_any};
ghost use Rattle.vlt_core.specs.View as view;
ghost use Rattle.vlt_core.specs.View.{program_of, ty_of, type_of, field_of, case_of};
ghost use Rattle.vlt_core.specs.Lookups as lookups;
ghost use Rattle.vlt_core.specs.Types as types;
ghost use Rattle.vlt_core.specs.KindedHeads as s;

use vlt_base::{Items, SetId, StateSet, TypeId};
use vlt_core::{CaseDecl, FieldDecl, Program, Ty, TypeDecl};

/// The declared type of this number, none where there is none.
pub fn decl(p: &Program, t: TypeId) -> Option<&TypeDecl>
    ensures { option_map type_of (option_copied result)
        ≡ types.decl_of (program_of p.now) t.0 }
{
    p.types.get(t.0 as usize)
}

/// Whether there is a type of this number.
pub fn is_declared(p: &Program, t: TypeId) -> bool
    ensures { result ≡ is_some (types.decl_of (program_of p.now) t.0) }
{
    decl(p, t).is_some()
}

/// Whether the number is a struct's.
pub fn is_struct(p: &Program, t: TypeId) -> bool
    ensures { result ≡ types.is_struct (types.decl_of (program_of p.now) t.0) }
{
    matches!(decl(p, t), Some(TypeDecl::Struct { .. }))
}

/// Whether the number is an abstract type's.
pub fn is_abstract(p: &Program, t: TypeId) -> bool
    ensures { result ≡ types.is_abstract (types.decl_of (program_of p.now) t.0) }
{
    matches!(decl(p, t), Some(TypeDecl::Abstract { .. }))
}

/// Whether the number is a variant's.
pub fn is_variant(p: &Program, t: TypeId) -> bool
    ensures { result ≡ types.is_variant (types.decl_of (program_of p.now) t.0) }
{
    matches!(decl(p, t), Some(TypeDecl::Variant { .. }))
}

/// The header of a type, none where there is no such type.
pub fn header(p: &Program, t: TypeId) -> &[Option<TypeId>]
    ensures { view.header_of result.now ≡ types.header_of (program_of p.now) t.0 }
{
    match decl(p, t) {
        Some(TypeDecl::Struct { header, .. }) => header.as_slice(),
        Some(TypeDecl::Variant { header, .. }) => header.as_slice(),
        _ => &[],
    }
}

/// The fields of a struct, none of any other type.
pub fn fields(p: &Program, t: TypeId) -> &[FieldDecl]
    ensures { map field_of result.now ≡ lookups.fields_of (program_of p.now) t.0 }
{
    match decl(p, t) {
        Some(TypeDecl::Struct { fields, .. }) => fields.as_slice(),
        _ => &[],
    }
}

/// The cases of a variant, none of any other type.
pub fn cases(p: &Program, t: TypeId) -> &[CaseDecl]
    ensures { map case_of result.now ≡ lookups.cases_of (program_of p.now) t.0 }
{
    match decl(p, t) {
        Some(TypeDecl::Variant { cases, .. }) => cases.as_slice(),
        _ => &[],
    }
}

/// Whether the set that a declared type names is there.
pub fn has_set(p: &Program, d: &TypeDecl) -> bool
    ensures { result ≡ s.has_set (program_of p.now) (Some (type_of d.now)) }
{
    match d {
        TypeDecl::Abstract { set: Some(set), .. } => has_number(p, *set),
        TypeDecl::Struct { set: Some(set), .. } => has_number(p, *set),
        _ => true,
    }
}

fn has_number(p: &Program, set: SetId) -> bool
    ensures { result ≡ nat_lt set.0 (length (program_of p.now).sets) }
{
    (set.0 as usize) < p.sets.len()
}

/// Whether the set that the type of this number names is there.
pub fn has_set_of(p: &Program, t: TypeId) -> bool
    ensures { result ≡ s.has_set (program_of p.now) (types.decl_of (program_of p.now) t.0) }
{
    match decl(p, t) {
        None => true,
        Some(d) => has_set(p, d),
    }
}

fn lists_keys(case: &CaseDecl) -> bool
    ensures { result ≡ types.is_filled (case_of case.now).keys }
{
    !case.keys.as_slice().is_empty()
}

fn any_has_keys(cases: &[CaseDecl]) -> bool
    ensures { result ≡ list_any (λ c. types.is_filled c.keys) (map case_of cases.now) }
{
    for case in cases {
        if lists_keys(case) {
            return true;
        }
    }
    false
}

/// Whether a case of the variant has keys.
pub fn is_keyed(p: &Program, t: TypeId) -> bool
    ensures { result ≡ types.is_keyed (program_of p.now) t.0 }
{
    any_has_keys(cases(p, t))
}

fn any_owns(payload: &[Ty]) -> bool
    ensures { result ≡ list_any lookups.is_owning (map ty_of payload.now) }
{
    for ty in payload {
        if ty.is_owning() {
            return true;
        }
    }
    false
}

fn any_case_owns(cases: &[CaseDecl]) -> bool
    ensures { result ≡ list_any (λ c. list_any lookups.is_owning c.payload)
        (map case_of cases.now) }
{
    for case in cases {
        if any_owns(case.payload.as_slice()) {
            return true;
        }
    }
    false
}

/// Whether a variant owns: it is keyed, or a payload owns.
pub fn is_owning_type(p: &Program, t: TypeId) -> bool
    ensures { result ≡ types.is_owning_type (program_of p.now) t.0 }
{
    is_keyed(p, t) || any_case_owns(cases(p, t))
}
