//! How many parts values have, and how many fields objects.

ghost use Rattle.std.specs.Prelude.{◌≡◌, map, length, Some, IfSome};
ghost use Rattle.vlt_core.specs.View.{program_of, type_of, field_of, case_of, var_of, func_of, ty_of};
ghost use Rattle.vlt_core.specs.Lookups as lookups;
ghost use Rattle.vlt_core.specs.Widths.{greatest};
ghost use Rattle.vlt_interp.specs.Tasks.Sizes as sizes;
ghost use Rattle.vlt_interp.specs.Tasks.Sizes.{cases_in_ty, IsWide};
ghost use Rattle.vlt_interp.specs.Rooms.Rooms.{HoldsFields};
ghost use Rattle.vlt_interp.specs.Rooms.Sorts.{parts_in_vars, parts_in_result, parts_in_type};

use vlt_base::TypeId;
use vlt_core::{CaseDecl, FieldDecl, Func, Program, Ty, TypeDecl, VarDecl};

/// The fields of a struct, none of any other type.
pub fn fields_in(t: &TypeDecl) -> &[FieldDecl]
    ensures { map field_of result.now ≡ lookups.fields_in (Some (type_of t.now)) }
{
    match t {
        TypeDecl::Struct { fields, .. } => fields.as_slice(),
        _ => &[],
    }
}

/// The cases of a declared variant, none of any other type.
pub fn cases_of(p: &Program, t: TypeId) -> &[CaseDecl]
    ensures { map case_of result.now ≡ lookups.cases_of (program_of p.now) t.0 }
{
    match p.types.get(t.0 as usize) {
        Some(TypeDecl::Variant { cases, .. }) => cases.as_slice(),
        _ => &[],
    }
}

/// The cases of a variant, none of any other type.
fn cases_in<'a>(p: &'a Program, t: &Ty) -> &'a [CaseDecl]
    ensures { map case_of result.now ≡ cases_in_ty (program_of p.now) (ty_of t.now) }
{
    match t {
        Ty::Var(t, _) => cases_of(p, *t),
        Ty::OwnVar(t, _) => cases_of(p, *t),
        _ => &[],
    }
}

/// How many parts a value of the case has.
fn case_parts(c: &CaseDecl) -> u128
    ensures { result ≡ sizes.case_parts (case_of c.now) }
{
    1 + c.payload.len() as u128 + c.keys.len() as u128
}

/// How many parts the values of cases have at most.
fn most_parts(cases: &[CaseDecl]) -> u128
    ensures { result ≡ greatest sizes.case_parts (map case_of cases.now) }
{
    let mut most = 0;
    for c in cases {
        most = most.max(case_parts(c));
    }
    most
}

/// How many parts a value of the type has at most.
fn parts_of(p: &Program, t: &Ty) -> u128
    ensures { result ≡ sizes.parts_of (program_of p.now) (ty_of t.now) }
{
    most_parts(cases_in(p, t)).max(1)
}

/// How many parts a value of a variable has at most.
fn var_parts(p: &Program, vars: &[VarDecl]) -> u128
    ensures { result ≡ greatest (λ d. sizes.parts_of (program_of p.now) d.ty)
        (map var_of vars.now) }
{
    let mut most = 0;
    for d in vars {
        most = most.max(parts_of(p, &d.ty));
    }
    most
}

/// How many parts a value of a field has at most.
fn field_parts(p: &Program, fields: &[FieldDecl]) -> u128
    ensures { result ≡ greatest (λ d. sizes.parts_of (program_of p.now) d.ty)
        (map field_of fields.now) }
{
    let mut most = 0;
    for d in fields {
        most = most.max(parts_of(p, &d.ty));
    }
    most
}

/// How many parts a value of a field of the type has at most.
fn type_parts(p: &Program, t: &TypeDecl) -> u128
    ensures { result ≡ parts_in_type (program_of p.now) (type_of t.now) }
{
    field_parts(p, fields_in(t))
}

/// How many parts a value of a variable of the function has at most.
fn func_parts(p: &Program, f: &Func) -> u128
    ensures { result ≡ parts_in_vars (program_of p.now) (func_of f.now) }
{
    var_parts(p, f.vars.as_slice())
}

/// How many parts a value has that the function gives.
fn result_parts(p: &Program, f: &Func) -> u128
    ensures { result ≡ parts_in_result (program_of p.now) (func_of f.now) }
{
    match &f.result {
        None => 0,
        Some(t) => parts_of(p, t),
    }
}

/// How many parts a value of any variable has at most.
fn parts_in_functions(p: &Program) -> u128
    ensures { result ≡ greatest (parts_in_vars (program_of p.now)) (program_of p.now).fns }
{
    let mut most = 0;
    for f in p.fns.as_slice() {
        most = most.max(func_parts(p, f));
    }
    most
}

/// How many parts a value has at most that a function gives.
fn parts_in_results(p: &Program) -> u128
    ensures { result ≡ greatest (parts_in_result (program_of p.now)) (program_of p.now).fns }
{
    let mut most = 0;
    for f in p.fns.as_slice() {
        most = most.max(result_parts(p, f));
    }
    most
}

/// How many parts a value of any field has at most.
fn parts_in_types(p: &Program) -> u128
    ensures { result ≡ greatest (parts_in_type (program_of p.now)) (program_of p.now).types }
{
    let mut most = 0;
    for t in p.types.as_slice() {
        most = most.max(type_parts(p, t));
    }
    most
}

/// How many slots each value takes; none where they can't be counted.
pub fn value_width(p: &Program) -> Option<u32>
    ensures { IfSome result (IsWide (program_of p.now)) }
{
    let in_frames = parts_in_functions(p).max(parts_in_results(p));
    let most = in_frames.max(parts_in_types(p));
    u32::try_from(most.max(1)).ok()
}

/// How many fields an object has at most.
pub fn most_fields(p: &Program) -> u64
    ensures { result ≡ greatest (λ t. length (lookups.fields_in (Some t)))
        (program_of p.now).types }
{
    let mut most = 0;
    for t in p.types.as_slice() {
        most = most.max(fields_in(t).len() as u64);
    }
    most
}

/// How many slots an object takes at most; none where they can't be counted.
pub fn object_slots(p: &Program, width: u32) -> Option<u32>
    ensures { IfSome result (HoldsFields (program_of p.now) width) }
{
    let fields = u32::try_from(most_fields(p)).ok()?;
    fields.checked_mul(width)
}
