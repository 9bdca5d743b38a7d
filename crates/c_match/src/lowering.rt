//! The lowering of a program, part by part.

ghost use Rattle.std.specs.Prelude.{◌≡◌, false, Decides, IfOk};
ghost use Rattle.vlt_core.specs.View as view;
ghost use Rattle.c_syntax.specs.View.{program_of};
ghost use Rattle.c_lower.specs.Lowering.{lowered};
ghost use Rattle.c_lower_exprs.specs.Scopes.{AreTables};
ghost use Rattle.c_lower_program.specs.Glue.ManyCases.{gives_many_cases};
ghost use Rattle.c_match.specs.Whole.{whole_of};

use crate::same::same_funcs;
use c_lower_exprs::{ProgramTables, name_of};
use c_lower_program::{lower_bodies, lower_externals};
use c_syntax::{CFunc, CProgram};
use std::alloc::Global;
use vlt_base::{Items, Memory};
use vlt_core::Program;

/// A C program whose main function may have any number of 64 bits.
#[derive(Drop)]
pub struct Lowering {
    pub glue: Items<CFunc>,
    pub fns: Items<CFunc>,
    pub main: u64,
}

/// The lowering of a program.
pub fn lower(alloc: Global, program: &Program, tables: &ProgramTables) -> Result<Lowering, Memory>
    requires tables { AreTables (view.program_of program.now) tables.now }
    requires few { gives_many_cases (view.program_of program.now) ≡ false }
    ensures { IfOk result (λ x. whole_of x ≡ lowered (view.program_of program.now)) }
{
    let glue = lower_externals(alloc, program, tables)?;
    let fns = lower_bodies(alloc, program, tables)?;
    let main = name_of(program, &tables.names, program.main).number;
    Ok(Lowering { glue, fns, main })
}

/// Whether a C program is this lowering.
#[tactic(auto, using(crate::proofs::Wholes::program_from))]
pub fn is_whole(given: &CProgram, lowering: &Lowering) -> bool
    ensures { Decides result (program_of given.now ≡ whole_of lowering.now) }
{
    if u64::from(given.main) != lowering.main {
        return false;
    }
    if !same_funcs(given.glue.as_slice(), lowering.glue.as_slice()) {
        return false;
    }
    same_funcs(given.fns.as_slice(), lowering.fns.as_slice())
}
