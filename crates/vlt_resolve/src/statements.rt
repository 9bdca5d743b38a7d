//! Statements without blocks.

ghost use Rattle.std.specs.Prelude.{◌≡◌, IfOk, OnOk};
ghost use Rattle.vlt_syntax.specs.View as tree;
ghost use Rattle.vlt_kinds_types.specs.Names.Refusals.{least_from};
ghost use Rattle.vlt_kinds_types.specs.Seen.{kinds_seen};
ghost use Rattle.vlt_resolve_exprs.specs.Seen.{scope_seen, forms_of};
ghost use Rattle.vlt_resolve_stmts.specs.Seen.{around_seen};
ghost use Rattle.vlt_elaboration.specs.Statements as s;

use std::alloc::{AllocError, Global};
use vlt_kinds_types::{Kinds, LeastRefusal};
use vlt_resolve_changes::{change_state, drop_call, open, print, put, release, swap};
use vlt_resolve_exprs::{Forms, Scope};
use vlt_resolve_stmts::{Around, assign, declare, jump, return_stmt};
use vlt_syntax::Stmt;

/// Tests a statement without blocks, and makes it. What it makes counts only where nothing is refused.
pub fn simple<'a>(
    alloc: Global,
    kinds: &Kinds<'_>,
    around: Around<'_>,
    scope: &mut Scope<'a>,
    stmt: &'a Stmt,
    found: &mut LeastRefusal,
) -> Result<Forms, AllocError>
    ensures refused { OnOk result (found.new.least
        ≡ least_from found.old.least (s.simple_refused (kinds_seen kinds.now)
        (around_seen around.entry) (scope_seen scope.old) (tree.stmt_of stmt.now))) }
    ensures became { IfOk result (λ fs. s.simple_became (kinds_seen kinds.now)
        (around_seen around.entry) (scope_seen scope.old) (tree.stmt_of stmt.now)
        ≡ (forms_of fs, scope_seen scope.new)) }
{
    match stmt {
        Stmt::Declare {
            ty,
            name,
            value,
            at,
        } => declare(alloc, kinds, scope, ty, name, value, at.from, found),
        Stmt::Assign { name, value, at } => assign(
            alloc, kinds, scope, name, value, at.from, found,
        ),
        Stmt::Put {
            base,
            field,
            value,
            ..
        } => put(alloc, kinds, scope, base, field, value, found),
        Stmt::Call(called, at) => drop_call(alloc, kinds, scope, called, at.from, found),
        Stmt::Print(value, _) => print(alloc, kinds, scope, value, found),
        Stmt::Break(at) => jump(alloc, around, false, at.from, found),
        Stmt::Continue(at) => jump(alloc, around, true, at.from, found),
        Stmt::Return(value, at) => return_stmt(alloc, kinds, around, scope, value, at.from, found),
        Stmt::Release(name, _) => release(alloc, kinds, scope, name, found),
        Stmt::Become {
            variable,
            state,
            ..
        } => change_state(alloc, kinds, scope, variable, state, found),
        Stmt::Swap {
            base,
            field,
            variable,
            ..
        } => swap(alloc, kinds, scope, base, field, variable, found),
        Stmt::Open {
            variable,
            parts,
            at,
        } => {
            let parts = parts.as_slice();
            open(alloc, kinds, scope, variable, parts, at.from, found)
        }
        _ => Ok(Forms::Nothing),
    }
}
