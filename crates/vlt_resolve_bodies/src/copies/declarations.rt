//! Sets of states, and types.

ghost use Rattle.std.specs.Prelude.{◌≡◌, IfOk};

use crate::copies::copy_bytes;
use std::alloc::{AllocError, Global};
use vlt_base::{Items, TypeId};
use vlt_core::{CaseDecl, FieldDecl, SetDecl, Ty, TypeDecl};
use vlt_resolve_exprs::copy_ty;

fn copy_names(alloc: Global, names: &[Items<u8>]) -> Result<Items<Items<u8>>, AllocError>
    ensures { IfOk result (λ ns. ns ≡ names.now) }
{
    let mut made = Items::new(alloc);
    for name in names {
        made.push(copy_bytes(alloc, name)?)?;
    }
    Ok(made)
}

fn copy_set(alloc: Global, set: &SetDecl) -> Result<SetDecl, AllocError>
    ensures { IfOk result (λ s. s ≡ set.now) }
{
    Ok(SetDecl {
        name: copy_bytes(alloc, &set.name)?,
        states: copy_names(alloc, set.states.as_slice())?,
        links: Items::from_slice(alloc, set.links.as_slice())?,
    })
}

/// The same state sets, in memory of their own.
pub fn copy_sets(alloc: Global, sets: &[SetDecl]) -> Result<Items<SetDecl>, AllocError>
    ensures { IfOk result (λ ss. ss ≡ sets.now) }
{
    let mut made = Items::new(alloc);
    for set in sets {
        made.push(copy_set(alloc, set)?)?;
    }
    Ok(made)
}

fn copy_types_in(alloc: Global, types: &[Ty]) -> Result<Items<Ty>, AllocError>
    ensures { IfOk result (λ ts. ts ≡ types.now) }
{
    let mut made = Items::new(alloc);
    for ty in types {
        made.push(copy_ty(alloc, ty)?)?;
    }
    Ok(made)
}

fn copy_field(alloc: Global, field: &FieldDecl) -> Result<FieldDecl, AllocError>
    ensures { IfOk result (λ f. f ≡ field.now) }
{
    Ok(FieldDecl {
        name: copy_bytes(alloc, &field.name)?,
        ty: copy_ty(alloc, &field.ty)?,
        states: field.states,
    })
}

fn copy_fields(alloc: Global, fields: &[FieldDecl]) -> Result<Items<FieldDecl>, AllocError>
    ensures { IfOk result (λ fs. fs ≡ fields.now) }
{
    let mut made = Items::new(alloc);
    for field in fields {
        made.push(copy_field(alloc, field)?)?;
    }
    Ok(made)
}

fn copy_case(alloc: Global, case: &CaseDecl) -> Result<CaseDecl, AllocError>
    ensures { IfOk result (λ c. c ≡ case.now) }
{
    Ok(CaseDecl {
        name: copy_bytes(alloc, &case.name)?,
        payload: copy_types_in(alloc, case.payload.as_slice())?,
        keys: Items::from_slice(alloc, case.keys.as_slice())?,
    })
}

fn copy_cases(alloc: Global, cases: &[CaseDecl]) -> Result<Items<CaseDecl>, AllocError>
    ensures { IfOk result (λ cs. cs ≡ cases.now) }
{
    let mut made = Items::new(alloc);
    for case in cases {
        made.push(copy_case(alloc, case)?)?;
    }
    Ok(made)
}

fn copy_header(
    alloc: Global,
    header: &Items<Option<TypeId>>,
) -> Result<Items<Option<TypeId>>, AllocError>
    ensures { IfOk result (λ h. h ≡ header.now) }
{
    Items::from_slice(alloc, header.as_slice())
}

fn copy_decl(alloc: Global, decl: &TypeDecl) -> Result<TypeDecl, AllocError>
    ensures { IfOk result (λ d. d ≡ decl.now) }
{
    Ok(match decl {
        TypeDecl::Abstract { name, set } => TypeDecl::Abstract {
            name: copy_bytes(alloc, name)?,
            set: *set,
        },
        TypeDecl::Struct {
            name,
            header,
            set,
            release,
            fields,
        } => TypeDecl::Struct {
            name: copy_bytes(alloc, name)?,
            header: copy_header(alloc, header)?,
            set: *set,
            release: *release,
            fields: copy_fields(alloc, fields.as_slice())?,
        },
        TypeDecl::Variant {
            name,
            header,
            cases,
        } => TypeDecl::Variant {
            name: copy_bytes(alloc, name)?,
            header: copy_header(alloc, header)?,
            cases: copy_cases(alloc, cases.as_slice())?,
        },
    })
}

/// The same types, in memory of their own.
pub fn copy_decls(alloc: Global, decls: &[TypeDecl]) -> Result<Items<TypeDecl>, AllocError>
    ensures { IfOk result (λ ds. ds ≡ decls.now) }
{
    let mut made = Items::new(alloc);
    for decl in decls {
        made.push(copy_decl(alloc, decl)?)?;
    }
    Ok(made)
}
