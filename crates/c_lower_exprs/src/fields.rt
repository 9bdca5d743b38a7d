//! Which cells of a block the fields of a struct have.

ghost use Rattle.std.specs.Prelude.{◌≡◌, map, IfOk, Some};
ghost use Rattle.vlt_core.specs.Lookups.{fields_in};
ghost use Rattle.vlt_core.specs.View.{program_of, field_of, type_of};
ghost use Rattle.c_lower.specs.Slots.{past_all};
ghost use Rattle.c_lower_exprs.specs.Tables.{numbers_of, sort_of, struct_view, struct_laid, AreWidths, AreStructs};

use crate::numbers::Numbers;
use crate::sorts::{Sort, sorts_of};
use crate::variants::VariantWidths;
use std::alloc::Global;
use vlt_base::{Items, Memory};
use vlt_core::{FieldDecl, Program, TypeDecl};

/// The cells of a field: the numbers of the first of each kind, and the sort of each cell.
#[derive(Drop)]
pub struct FieldSlots {
    pub start: Numbers,
    pub sorts: Items<Sort>,
}

/// The fields of a struct, and how many cells of both kinds they take.
#[derive(Drop)]
pub struct StructSlots {
    pub fields: Items<FieldSlots>,
    pub counts: Numbers,
}

/// The numbers after slots of these sorts.
pub fn past_all(start: Numbers, sorts: &[Sort]) -> Result<Numbers, Memory>
    ensures { IfOk result (λ t.
        numbers_of t ≡ past_all (numbers_of start) (map sort_of sorts.now)) }
{
    let mut next = start;
    for &sort in sorts {
        next = next.past(sort)?;
    }
    Ok(next)
}

/// The cells of a struct's fields.
fn struct_slots(
    alloc: Global,
    program: &Program,
    variants: &Items<VariantWidths>,
    decls: &[FieldDecl],
) -> Result<StructSlots, Memory>
    requires { AreWidths (program_of program.now) variants.now }
    ensures { IfOk result (λ x. struct_view x
        ≡ struct_laid (program_of program.now) (map field_of decls.now)) }
{
    let mut fields = Items::new(alloc);
    let mut counts = Numbers::FIRST;
    for decl in decls {
        let start = counts;
        let sorts = sorts_of(alloc, program, variants, &decl.ty)?;
        counts = past_all(start, sorts.as_slice())?;
        fields.push(FieldSlots { start, sorts })?;
    }
    Ok(StructSlots { fields, counts })
}

/// The fields of a struct, none of any other type.
fn fields_in(decl: &TypeDecl) -> &[FieldDecl]
    ensures { map field_of result.now ≡ fields_in (Some (type_of decl.now)) }
{
    match decl {
        TypeDecl::Struct { fields, .. } => fields.as_slice(),
        _ => &[],
    }
}

/// The cells of each declared type, by its number; a type that is no struct has none.
pub fn struct_tables(
    alloc: Global,
    program: &Program,
    variants: &Items<VariantWidths>,
) -> Result<Items<StructSlots>, Memory>
    requires { AreWidths (program_of program.now) variants.now }
    ensures { IfOk result (λ table. AreStructs (program_of program.now) table) }
{
    let mut table = Items::new(alloc);
    for decl in program.types.as_slice() {
        table.push(struct_slots(alloc, program, variants, fields_in(decl))?)?;
    }
    Ok(table)
}
