//! Which declared types may be dropped: marks on those from which a part is reached that no release may reach.

ghost use Rattle.std.specs.Prelude.{◌≡◌, ◌||◌, ◌&&◌, suc, true, map, length, IfOk};
ghost use Rattle.std.specs.List.{list_any};
ghost use Rattle.vlt_core.specs.View as view;
ghost use Rattle.vlt_core.specs.View.{program_of};
ghost use Rattle.vlt_core.specs.Lookups as l;
ghost use Rattle.vlt_core.specs.Types as t;
ghost use Rattle.vlt_kinds_queries.specs.Marks as m;
ghost use Rattle.vlt_kinds_queries.specs.Rounds as r;

use crate::declared::{is_keyed, is_struct, is_variant};
use crate::states::is_released;
use std::alloc::{AllocError, Global};
use vlt_base::{Items, TypeId};
use vlt_core::{CaseDecl, FieldDecl, Program, Ty, TypeDecl};
use vlt_kinds_queries::is_marked;

fn part_type(ty: &Ty) -> TypeId
    ensures { result.0 ≡ t.part_type (view.ty_of ty.now) }
{
    match ty {
        Ty::Int | Ty::Bool => TypeId(0),
        Ty::Key(_, number, _) | Ty::Guard(_, number, _) => *number,
        Ty::Own(_, number, _) => *number,
        Ty::Var(number, _) | Ty::OwnVar(number, _) => *number,
    }
}

fn is_undroppable_part(p: &Program, ty: &Ty) -> bool
    ensures { result ≡ t.is_undroppable_part (program_of p.now) (view.ty_of ty.now) }
{
    match ty {
        Ty::Own(states, number, _) => {
            !(is_struct(p, *number) && is_released(p, *number, *states))
        }
        Ty::OwnVar(number, _) => !is_variant(p, *number) || is_keyed(p, *number),
        _ => false,
    }
}

fn is_part_marked(p: &Program, marks: &[bool], ty: &Ty) -> bool
    ensures { result ≡ r.part_marked (program_of p.now) marks.now (view.ty_of ty.now) }
{
    ty.is_owning() && (is_undroppable_part(p, ty) || is_marked(marks, part_type(ty)))
}

fn is_field_marked(p: &Program, marks: &[bool], fields: &[FieldDecl]) -> bool
    ensures { result ≡ list_any (λ f. r.part_marked (program_of p.now) marks.now f.ty)
        (map view.field_of fields.now) }
{
    for field in fields {
        if is_part_marked(p, marks, &field.ty) {
            return true;
        }
    }
    false
}

fn is_payload_marked(p: &Program, marks: &[bool], payload: &[Ty]) -> bool
    ensures { result ≡ list_any (r.part_marked (program_of p.now) marks.now)
        (map view.ty_of payload.now) }
{
    for ty in payload {
        if is_part_marked(p, marks, ty) {
            return true;
        }
    }
    false
}

fn is_case_marked(p: &Program, marks: &[bool], cases: &[CaseDecl]) -> bool
    ensures { result ≡ list_any (λ c. list_any
        (r.part_marked (program_of p.now) marks.now) c.payload)
        (map view.case_of cases.now) }
{
    for case in cases {
        if is_payload_marked(p, marks, case.payload.as_slice()) {
            return true;
        }
    }
    false
}

fn is_decl_marked(p: &Program, marks: &[bool], decl: &TypeDecl) -> bool
    ensures { result ≡ r.decl_marked (program_of p.now) marks.now
        (view.type_of decl.now) }
{
    match decl {
        TypeDecl::Abstract { .. } => false,
        TypeDecl::Struct { fields, .. } => is_field_marked(p, marks, fields.as_slice()),
        TypeDecl::Variant { cases, .. } => is_case_marked(p, marks, cases.as_slice()),
    }
}

fn marked_more(p: &Program, alloc: Global, marks: &[bool]) -> Result<Items<bool>, AllocError>
    ensures { IfOk result (λ more. more ≡ r.marked_more (program_of p.now) marks.now) }
{
    let mut more = Items::new(alloc);
    for decl in p.types.as_slice() {
        more.push(is_decl_marked(p, marks, decl))?;
    }
    Ok(more)
}

/// Marks on the types from which a part is reached that no release may reach. An error is a refused allocation.
#[tactic(auto, using(crate::proofs::Marked::are_marked))]
pub fn marks(p: &Program, alloc: Global) -> Result<Items<bool>, AllocError>
    ensures { IfOk result (λ marks. m.AreMarks (program_of p.now) marks) }
{
    let marks = last_marks(p, alloc)?;
    Ok(marks)
}

/// The rounds end where one changes nothing.
fn last_marks(p: &Program, alloc: Global) -> Result<Items<bool>, AllocError>
    ensures { IfOk result (λ marks. marks
        ≡ r.marks_after (program_of p.now)
        (suc (length (program_of p.now).types))) }
{
    let mut marks = marked_more(p, alloc, &[])?;
    let count = p.types.len();
    for round in 0..count {
        let _ = round;
        let more = marked_more(p, alloc, marks.as_slice())?;
        if more.as_slice() == marks.as_slice() {
            return Ok(marks);
        }
        marks = more;
    }
    Ok(marks)
}

/// Whether a struct may be dropped with all that it owns. The marks are those that `marks` gives.
pub fn is_droppable_struct(p: &Program, marks: &[bool], number: TypeId) -> bool
    requires { m.AreMarks (program_of p.now) marks.now }
    ensures { result ≡ t.is_droppable_struct (program_of p.now) number.0 }
{
    is_struct(p, number) && !is_marked(marks, number)
}

/// Whether a value of the type may be dropped with all that it owns. The marks are those that `marks` gives.
pub fn is_droppable(p: &Program, marks: &[bool], ty: &Ty) -> bool
    requires { m.AreMarks (program_of p.now) marks.now }
    ensures { result ≡ t.is_droppable (program_of p.now) (view.ty_of ty.now) }
{
    match ty {
        Ty::Own(states, number, _) => {
            is_droppable_struct(p, marks, *number) && is_released(p, *number, *states)
        }
        Ty::OwnVar(number, _) => {
            is_variant(p, *number) && !is_keyed(p, *number) && !is_marked(marks, *number)
        }
        _ => false,
    }
}
