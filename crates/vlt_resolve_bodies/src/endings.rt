//! What is refused at the head and at the end of a body, and how it ends.

ghost use Rattle.std.specs.Prelude.{◌≡◌, ◌++◌, map, OnOk};
ghost use Rattle.vlt_syntax.specs.View as tree;
ghost use Rattle.vlt_core.specs.View.{func_of, stmt_of};
ghost use Rattle.vlt_kinds_types.specs.Names.Refusals.{least_from};
ghost use Rattle.vlt_elaboration.specs.Elaboration as e;

use crate::blocks::{block_ends, closing};
use std::alloc::AllocError;
use vlt_base::Items;
use vlt_core::rules::NO_END;
use vlt_core::{Form, Func, KeyDecl, VarDecl};
use vlt_kinds_types::LeastRefusal;
use vlt_resolve_exprs::Scope;
use vlt_resolve_exprs::limits::{TOO_MANY_KEYS, TOO_MANY_VARIABLES};
use vlt_syntax::Block;

/// Refuses a head with more keys or variables than a function may have.
#[tactic(auto, using(vlt_kinds_types::proofs::OfNames::Least::least_of_both), unfolding(vlt_elaboration::specs::Elaboration::head_refused))]
pub fn check_head(head: &Func, at: u32, found: &mut LeastRefusal)
    ensures { found.new.least ≡ least_from found.old.least
        (e.head_refused (func_of head.now) at) }
{
    found.add_if(head.keys.len() > 256, TOO_MANY_KEYS, at);
    found.add_if(head.vars.len() > 256, TOO_MANY_VARIABLES, at);
}

/// Refuses a body that gives a value and doesn't end.
#[tactic(auto, unfolding(vlt_elaboration::specs::Elaboration::end_refused))]
pub fn check_end(head: &Func, body: &Block, found: &mut LeastRefusal)
    ensures { found.new.least ≡ least_from found.old.least
        (e.end_refused (func_of head.now) (tree.block_of body.now)) }
{
    found.add_if(
        head.result.is_some() && !block_ends(body),
        NO_END,
        closing(body),
    );
}

/// A body that doesn't end has a last statement at its closing brace.
pub fn add_last(body: &Block, stmts: &mut Items<vlt_core::Stmt>) -> Result<(), AllocError>
    ensures { OnOk result (map stmt_of stmts.new
        ≡ map stmt_of stmts.old ++ e.last_return (tree.block_of body.now)) }
{
    if !block_ends(body) {
        stmts.push(vlt_core::Stmt {
            at: closing(body),
            form: Form::Return { value: None },
        })?;
    }
    Ok(())
}

/// All keys and variables of a function.
pub fn declared_in(scope: Scope<'_>) -> (Items<KeyDecl>, Items<VarDecl>)
    ensures keys { result.0 ≡ scope.entry.keys }
    ensures vars { result.1 ≡ scope.entry.vars }
{
    let Scope { keys, vars, .. } = scope;
    (keys, vars)
}
