//! The C program of a core program.

ghost use Rattle.std.specs.Prelude.{◌≡◌, nat_lt, false, IfOk, MatchResult};
ghost use Rattle.vlt_base.specs.Limits.{limit_of};
ghost use Rattle.vlt_core.specs.View as view;
ghost use Rattle.c_syntax.specs.View.{program_of};
ghost use Rattle.c_lower.specs.Statements as s;
ghost use Rattle.c_lower.specs.Lowering.{lowered};
ghost use Rattle.c_lower_exprs.specs.Scopes.{AreTables};
ghost use Rattle.c_lower_program.specs.Glue.ManyCases.{gives_many_cases};
ghost use Rattle.c_lower_program.specs.Refusals.{IsLowered, Refuses, length_of};

use crate::code::lower_bodies;
use crate::error::LowerError;
use crate::functions::program_size;
use crate::glue::{gives_many_cases, lower_externals};
use c_lower_exprs::{ProgramTables, name_of, program_tables};
use c_syntax::CProgram;
use std::alloc::Global;
use vlt_base::{C_BYTES, FnId, Memory, limit};
use vlt_core::Program;

/// The number in a function's name.
fn number_of(program: &Program, tables: &ProgramTables, f: FnId) -> u32
    requires { AreTables (view.program_of program.now) tables.now }
    ensures { result ≡ (s.name_of (view.program_of program.now) f.0).number }
{
    name_of(program, &tables.names, f).number as u32
}

/// The C program, however long it is.
fn lower_whole(alloc: Global, program: &Program) -> Result<CProgram, Memory>
    requires { gives_many_cases (view.program_of program.now) ≡ false }
    ensures { IfOk result (λ x. program_of x ≡ lowered (view.program_of program.now)) }
{
    let tables = program_tables(alloc, program)?;
    let glue = lower_externals(alloc, program, &tables)?;
    let fns = lower_bodies(alloc, program, &tables)?;
    Ok(CProgram {
        glue,
        fns,
        main: number_of(program, &tables, program.main),
    })
}

/// Whether a program's text is longer than the limit allows.
fn is_too_long(program: &CProgram) -> bool
    ensures { result ≡ nat_lt (limit_of C_BYTES) (length_of (program_of program.now)) }
{
    program_size(program) > limit(C_BYTES)
}

/// The C program that stands for a core program; its canonical text has at most as many bytes as limit 2 allows.
///
/// `Limit` where the text would be longer. `Cases` where an external gives a variant of more than 63 cases, whose mask is no
/// number of C. `Memory` where memory is refused, or where 64 bits can't number the slots of a function or the cells of a
/// struct, of which no memory holds so many.
pub fn lower(alloc: Global, program: &Program) -> Result<CProgram, LowerError>
    ensures { MatchResult result (IsLowered (view.program_of program.now))
        (Refuses (view.program_of program.now)) }
{
    if gives_many_cases(program) {
        return Err(LowerError::Cases);
    }
    let whole = lower_whole(alloc, program)?;
    if is_too_long(&whole) {
        return Err(LowerError::Limit);
    }
    Ok(whole)
}
