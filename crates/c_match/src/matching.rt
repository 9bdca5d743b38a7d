//! Whether a C program is the lowering of a core program.

ghost use Rattle.std.specs.Prelude.{◌≡◌, false, MatchResult, IfOk};
ghost use Rattle.vlt_core.specs.View as view;
ghost use Rattle.c_syntax.specs.View.{program_of};
ghost use Rattle.c_lower.specs.Lowering.{lowered};
ghost use Rattle.c_lower_exprs.specs.Scopes.{AreTables};
ghost use Rattle.c_lower_program.specs.Glue.ManyCases.{gives_many_cases};
ghost use Rattle.c_match.specs.Apart.{IsApartAt};
ghost use Rattle.c_match.specs.Refusals.{Refuses};
ghost use Rattle.c_match.specs.Whole.{whole_of};

use crate::apart::first_apart;
use crate::error::MatchError;
use crate::lowering::{Lowering, is_whole, lower};
use crate::owners::owners_of;
use crate::pieces::program_pieces;
use c_lower_exprs::{ProgramTables, program_tables};
use c_syntax::CProgram;
use std::alloc::Global;
use vlt_base::Memory;
use vlt_core::Program;

/// The first statement whose lowering isn't there, in a program that isn't the lowering.
fn first_differing(
    alloc: Global,
    program: &Program,
    tables: &ProgramTables,
    lowering: &Lowering,
    given: &CProgram,
) -> Result<u64, Memory>
    requires tables { AreTables (view.program_of program.now) tables.now }
    requires lowering { whole_of lowering.now ≡ lowered (view.program_of program.now) }
    requires other { program_of given.now ≡ whole_of lowering.now → ⊥ }
    ensures { IfOk result (IsApartAt (view.program_of program.now) (program_of given.now)) }
{
    let (glue, fns) = (lowering.glue.as_slice(), lowering.fns.as_slice());
    let wanted = program_pieces(alloc, lowering.main, glue, fns)?;
    let main = u64::from(given.main);
    let found = program_pieces(alloc, main, given.glue.as_slice(), given.fns.as_slice())?;
    let owners = owners_of(alloc, program, tables, glue)?;
    match first_apart(wanted.as_slice(), found.as_slice()) {
        Some(at) => Ok(owners.number(at)),
        None => unreachable!(),
    }
}

/// Tests whether a C program is the lowering of a core program none of whose externals gives a variant of more than 63 cases.
///
/// `Ok` exactly where it is. `Differs` where it isn't, with the first core statement whose lowering isn't there. `Memory` where
/// memory is refused, or where 64 bits can't number the statements, the slots of a function or the cells of a struct, of which
/// no memory holds so many.
pub fn matches(alloc: Global, program: &Program, given: &CProgram) -> Result<(), MatchError>
    requires { gives_many_cases (view.program_of program.now) ≡ false }
    ensures { MatchResult result
        (λ _. program_of given.now ≡ lowered (view.program_of program.now))
        (Refuses (view.program_of program.now) (program_of given.now)) }
{
    let tables = program_tables(alloc, program)?;
    let lowering = lower(alloc, program, &tables)?;
    if is_whole(given, &lowering) {
        return Ok(());
    }
    let statement = first_differing(alloc, program, &tables, &lowering, given)?;
    Err(MatchError::Differs { statement })
}
