//! How many slots the values of variants take.

ghost use Rattle.std.specs.Prelude.{◌≡◌, map, IfOk, Some};
ghost use Rattle.std.specs.List.{count_by};
ghost use Rattle.vlt_core.specs.Lookups.{cases_in};
ghost use Rattle.vlt_core.specs.Widths.{greatest};
ghost use Rattle.vlt_core.specs.View.{program_of, case_of, ty_of, type_of};
ghost use Rattle.c_lower_exprs.specs.Tables.{is_of, widths_view, widths_at, widths_of_cases, AreWidths};

use crate::sorts::Sort;
use std::alloc::Global;
use vlt_base::{Items, Memory, TypeId};
use vlt_core::{CaseDecl, Program, Ty, TypeDecl};

/// How many slots of each sort a variant has after that of its case.
#[derive(Clone, Copy)]
pub struct VariantWidths {
    pub numbers: u64,
    pub references: u64,
    pub owners: u64,
}

/// Whether a payload is of the sort.
fn is_of(sort: Sort, ty: &Ty) -> bool
    ensures { result ≡ is_of sort (ty_of ty.now) }
{
    match sort {
        Sort::Number => matches!(ty, Ty::Int | Ty::Bool),
        Sort::Reference => matches!(ty, Ty::Guard(..)),
        Sort::Owner => ty.is_owning(),
    }
}

/// How many payloads of a sort there are.
fn count(sort: Sort, payload: &[Ty]) -> u64
    ensures { result ≡ count_by (is_of sort) (map ty_of payload.now) }
{
    let mut n = 0;
    for ty in payload {
        if is_of(sort, ty) {
            n += 1;
        }
    }
    n
}

/// The most payloads of a sort that a case has.
fn most_of(sort: Sort, cases: &[CaseDecl]) -> u64
    ensures { result ≡ greatest (λ c. count_by (is_of sort) c.payload) (map case_of cases.now) }
{
    let mut most = 0;
    for case in cases {
        most = most.max(count(sort, case.payload.as_slice()));
    }
    most
}

fn widths_of_cases(cases: &[CaseDecl]) -> VariantWidths
    ensures { widths_view result ≡ widths_of_cases (map case_of cases.now) }
{
    VariantWidths {
        numbers: most_of(Sort::Number, cases),
        references: most_of(Sort::Reference, cases),
        owners: most_of(Sort::Owner, cases),
    }
}

/// The cases of a declared variant, none of any other type.
fn cases_in(decl: &TypeDecl) -> &[CaseDecl]
    ensures { map case_of result.now ≡ cases_in (Some (type_of decl.now)) }
{
    match decl {
        TypeDecl::Variant { cases, .. } => cases.as_slice(),
        _ => &[],
    }
}

/// The widths of each declared type, by its number; those of a type that is no variant are 0.
pub fn variant_tables(alloc: Global, program: &Program) -> Result<Items<VariantWidths>, Memory>
    ensures { IfOk result (λ table. AreWidths (program_of program.now) table) }
{
    let mut table = Items::new(alloc);
    for decl in program.types.as_slice() {
        table.push(widths_of_cases(cases_in(decl)))?;
    }
    Ok(table)
}

/// The widths of a type, from the table.
pub fn widths_of(program: &Program, table: &Items<VariantWidths>, t: TypeId) -> VariantWidths
    requires { AreWidths (program_of program.now) table.now }
    ensures { widths_view result ≡ widths_at (program_of program.now) t.0 }
{
    match table.get(t.0 as usize) {
        Some(widths) => *widths,
        None => VariantWidths {
            numbers: 0,
            references: 0,
            owners: 0,
        },
    }
}
