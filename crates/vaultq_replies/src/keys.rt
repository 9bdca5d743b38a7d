//! What is held at each point of a program, in the words of its tree.

ghost use Rattle.std.specs.Prelude.{◌<◌, ◌^◌, ◌-◌, length, IfOk};
ghost use Rattle.vlt_core.specs.View.{program_of};
ghost use Rattle.vlt_syntax.specs.View.{tree_of};
ghost use Rattle.vlt_points.specs.Lines.{AreKeysLines};
ghost use Rattle.vaultc_replies.specs.Variables as v;
ghost use Rattle.vaultq_replies.specs.Listable.{IsListable};

use crate::names::variables_in;
use std::alloc::{AllocError, Global};
use vlt_core::Program;
use vlt_points::keys_lines;
use vlt_rows::RowError;
use vlt_syntax::Tree;

/// What is held at each point of a program. The tree has the names of states.
pub fn keys_text(
    alloc: Global,
    text: &[u8],
    tree: &Tree,
    program: &Program,
) -> Result<Vec<u8>, AllocError>
    requires size { length text.now < 2 ^ 32 - 1 }
    requires listable { IsListable (program_of program.now) }
    ensures { IfOk result (λ lines. AreKeysLines text.now (program_of program.now)
        (v.variable_in (tree_of tree.now)) lines.items) }
{
    let variables = variables_in(alloc, tree, program.fns.len() as u32)?;
    match keys_lines(alloc, text, program, variables.as_slice()) {
        Ok(lines) => Ok(lines),
        Err(RowError::Unfit) => unreachable!(),
        Err(RowError::Refused(_)) => unreachable!(),
        Err(RowError::Memory) => Err(AllocError),
    }
}
