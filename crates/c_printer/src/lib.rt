//! C programs in, their canonical text out.
//! Read `c_syntax/specs/Canonical.antt` first.
//! Used by: whatever writes C files.
#![tactic(auto)]

ghost use Rattle.std.specs.Prelude.{◌≡◌, IfOk};
ghost use Rattle.c_syntax.specs.Canonical.{canonical_text};
ghost use Rattle.c_syntax.specs.View.{program_of};

mod exprs;
mod functions;
mod stmts;
mod write;

use c_syntax::CProgram;
use std::alloc::Global;
use vlt_base::Memory;

/// The canonical text of the program.
pub fn print_c(alloc: Global, program: &CProgram) -> Result<Vec<u8>, Memory>
    ensures { IfOk result (λ text. text.items ≡ canonical_text (program_of program.now)) }
{
    let mut out = Vec::new(alloc);
    functions::write_program(&mut out, program)?;
    Ok(out)
}
