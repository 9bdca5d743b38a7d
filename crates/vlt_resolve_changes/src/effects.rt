//! `print`, and calls whose results are dropped.

ghost use Rattle.std.specs.Prelude.{◌≡◌, ◌∷◌, [], Some, None, IfOk, OnOk};
ghost use Rattle.vlt_syntax.specs.View as tree;
ghost use Rattle.vlt_core.specs.Core as core;
ghost use Rattle.vlt_kinds_types.specs.Names.Refusals.{least_from};
ghost use Rattle.vlt_kinds_types.specs.Seen.{kinds_seen};
ghost use Rattle.vlt_resolve_exprs.specs.Exprs as e;
ghost use Rattle.vlt_resolve_exprs.specs.Seen.{scope_seen, forms_of};
ghost use Rattle.vlt_resolve_calls.specs.Calls as c;

use std::alloc::{AllocError, Global};
use vlt_core::{Form, Ty};
use vlt_kinds_types::{Kinds, LeastRefusal};
use vlt_resolve_calls::{Use, call};
use vlt_resolve_exprs::{Forms, Scope, check_wanted, core_expr};
use vlt_syntax::{Call, Expr};

/// Tests `print`, and makes it. What it makes counts only where nothing is refused.
pub fn print(
    alloc: Global,
    kinds: &Kinds<'_>,
    scope: &Scope<'_>,
    value: &Expr,
    found: &mut LeastRefusal,
) -> Result<Forms, AllocError>
    ensures refused { OnOk result (found.new.least
        ≡ least_from found.old.least (e.wanted_refused (kinds_seen kinds.now)
        (scope_seen scope.now) (Some core.int) (tree.expr_of value.now))) }
    ensures forms { IfOk result (λ fs. forms_of fs ≡ core.simple (core.print
        (e.core_expr (kinds_seen kinds.now) (scope_seen scope.now) (tree.expr_of value.now)))
        ∷ []) }
{
    check_wanted(alloc, kinds, scope, &Some(Ty::Int), value, found)?;
    let e = core_expr(alloc, kinds, scope, value)?;
    Forms::one(alloc, Form::Print { e })
}

/// A call whose result, if there is one, is dropped at this place.
pub fn drop_call(
    alloc: Global,
    kinds: &Kinds<'_>,
    scope: &Scope<'_>,
    called: &Call,
    at: u32,
    found: &mut LeastRefusal,
) -> Result<Forms, AllocError>
    ensures refused { OnOk result (found.new.least ≡ least_from found.old.least
        (c.call_refused (kinds_seen kinds.now) (scope_seen scope.now) (c.dropped at)
        (tree.call_of called.now))) }
    ensures forms { IfOk result (λ fs. forms_of fs
        ≡ c.core_call (kinds_seen kinds.now) (scope_seen scope.now) (c.dropped at) None
        (tree.call_of called.now) ∷ []) }
{
    let form = call(alloc, kinds, scope, Use::Dropped(at), None, called, found)?;
    Forms::one(alloc, form)
}
