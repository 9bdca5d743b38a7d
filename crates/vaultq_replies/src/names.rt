//! The names that clauses have for states, one for each function.

ghost use Rattle.std.specs.Prelude.{◌≡◌, ◌<◌, ℕ, IfOk};
ghost use Rattle.vlt_syntax.specs.View.{tree_of};
ghost use Rattle.vlt_points.specs.Lines.{names_by};
ghost use Rattle.vaultc_replies.specs.Variables as v;

use std::alloc::{AllocError, Global};
use vaultc_replies::variable_in;
use vlt_syntax::Tree;

/// The names that the clauses of a tree's first functions, so many, have for a state.
pub fn variables_in(alloc: Global, tree: &Tree, count: u32) -> Result<Vec<&[u8]>, AllocError>
    ensures { IfOk result (λ names. (n : ℕ) → n < count →
        names_by names.items n ≡ v.variable_in (tree_of tree.now) n) }
{
    let mut names = Vec::new(alloc);
    for number in 0..count {
        names.push(variable_in(tree, number))?;
    }
    Ok(names)
}
