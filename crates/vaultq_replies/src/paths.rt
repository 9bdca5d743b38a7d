//! The faults of a program with the paths that show them, in the words of its tree.

ghost use Rattle.std.specs.Prelude.{◌<◌, ◌^◌, ◌-◌, length, IfOk};
ghost use Rattle.vlt_core.specs.View.{program_of};
ghost use Rattle.vlt_syntax.specs.View.{tree_of};
ghost use Rattle.vlt_all_faults_lines.specs.Lines.{IsPathsText};
ghost use Rattle.vaultc_replies.specs.Variables as v;
ghost use Rattle.vaultq_replies.specs.Listable.{IsListable};

use crate::names::variables_in;
use std::alloc::{AllocError, Global};
use vlt_all_faults_lines::all_paths;
use vlt_core::Program;
use vlt_rows::RowError;
use vlt_syntax::Tree;

/// All faults of a program with the paths that show them. The tree has the names of states.
pub fn paths_text(
    alloc: Global,
    text: &[u8],
    tree: &Tree,
    program: &Program,
) -> Result<Vec<u8>, AllocError>
    requires size { length text.now < 2 ^ 32 - 1 }
    requires listable { IsListable (program_of program.now) }
    ensures { IfOk result (λ lines. IsPathsText text.now (program_of program.now)
        (v.variable_in (tree_of tree.now)) lines.items) }
{
    let variables = variables_in(alloc, tree, program.fns.len() as u32)?;
    match all_paths(alloc, text, program, variables.as_slice()) {
        Ok(lines) => Ok(lines),
        Err(RowError::Unfit) => unreachable!(),
        Err(RowError::Refused(_)) => unreachable!(),
        Err(RowError::Memory) => Err(AllocError),
    }
}
