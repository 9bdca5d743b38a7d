//! The tables of a program, which are made once and looked up for each function.

ghost use Rattle.std.specs.Prelude.{IfOk};
ghost use Rattle.vlt_core.specs.View.{program_of};
ghost use Rattle.c_lower_exprs.specs.Scopes.{AreTables};

use crate::fields::{StructSlots, struct_tables};
use crate::names::{Names, names_of};
use crate::variants::{VariantWidths, variant_tables};
use std::alloc::Global;
use vlt_base::{Items, Memory};
use vlt_core::Program;

/// For each declared type the widths of a variant and the cells of a struct, and for each function its name in C.
#[derive(Drop)]
pub struct ProgramTables {
    pub variants: Items<VariantWidths>,
    pub structs: Items<StructSlots>,
    pub names: Names,
}

/// The tables of a program.
pub fn program_tables(alloc: Global, program: &Program) -> Result<ProgramTables, Memory>
    ensures { IfOk result (λ x. AreTables (program_of program.now) x) }
{
    let variants = variant_tables(alloc, program)?;
    let structs = struct_tables(alloc, program, &variants)?;
    let names = names_of(alloc, program)?;
    Ok(ProgramTables {
        variants,
        structs,
        names,
    })
}
