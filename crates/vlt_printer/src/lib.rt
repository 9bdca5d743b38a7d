//! Layouts: a tree in, its one layout as text out.
//! Read `specs/Lists.antt` first, then `specs/Layout.antt` (layout).
//! Used by: `vlt_printer_laws::layouts_are_read_again`, and `fmt`.
#![tactic(auto)]

ghost use Rattle.std.specs.Prelude.{◌≡◌, IfOk};
ghost use Rattle.vlt_syntax.specs.View.{tree_of};
ghost use Rattle.vlt_printer.specs.Layout.{layout};

mod decls;
mod exprs;
mod heads;
mod lists;
mod rights;
mod simple;
mod stmts;
mod types;

use std::alloc::Global;
use vlt_base::Memory;
use vlt_syntax::Tree;

/// The layout of a file. `Memory` says that there was none for the text.
pub fn print(alloc: Global, tree: &Tree) -> Result<Vec<u8>, Memory>
    ensures { IfOk result (λ text. text.items ≡ layout (tree_of tree.now)) }
{
    let mut out = Vec::new(alloc);
    decls::write_decls(alloc, &mut out, tree.decls.as_slice())?;
    Ok(out)
}
