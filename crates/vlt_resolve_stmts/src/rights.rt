//! Right sides, for a target: what is refused in them, and what they become.

ghost use Rattle.std.specs.Prelude.{◌≡◌, ◌∷◌, [], option_map, Some, IfOk, OnOk};
ghost use Rattle.vlt_syntax.specs.View as tree;
ghost use Rattle.vlt_core.specs.View.{ty_of};
ghost use Rattle.vlt_kinds_types.specs.Names.Refusals.{least_from};
ghost use Rattle.vlt_kinds_types.specs.Seen.{kinds_seen};
ghost use Rattle.vlt_resolve_exprs.specs.Seen.{scope_seen, forms_of, target_seen};
ghost use Rattle.vlt_resolve_calls.specs.Calls as c;
ghost use Rattle.vlt_resolve_exprs.specs.Targets as t;
ghost use Rattle.vlt_elaboration.specs.Rights as r;

use std::alloc::{AllocError, Global};
use vlt_base::VarId;
use vlt_core::rules::WRONG_TYPE;
use vlt_core::{Form, Ty};
use vlt_kinds_types::{Kinds, LeastRefusal};
use vlt_resolve_calls::{Use, build, call};
use vlt_resolve_exprs::{Forms, Scope, Target, same_ty};
use vlt_resolve_rights::{check_adopt, check_new, core_adopt, new_forms};
use vlt_syntax::{Call, Expr, Right};

#[tactic(auto, unfolding(vlt_elaboration::specs::Rights::input_refused))]
fn check_input(wanted: &Ty, ty: &Ty, at: u32, found: &mut LeastRefusal)
    ensures { found.new.least ≡ least_from found.old.least
        (r.input_refused (ty_of wanted.now) (ty_of ty.now) at) }
{
    found.add_if(!same_ty(wanted, ty), WRONG_TYPE, at);
}

/// A value for the variable `x`.
fn value(
    alloc: Global,
    kinds: &Kinds<'_>,
    scope: &Scope<'_>,
    target: &Target,
    x: VarId,
    expr: &Expr,
    found: &mut LeastRefusal,
) -> Result<Forms, AllocError>
    ensures refused { OnOk result (found.new.least ≡ least_from found.old.least
        (t.value_refused (kinds_seen kinds.now) (scope_seen scope.now) (target_seen target.now)
        (tree.expr_of expr.now))) }
    ensures forms { IfOk result (λ fs. forms_of fs
        ≡ t.core_value (kinds_seen kinds.now) (scope_seen scope.now) (target_seen target.now)
        x.0 (tree.expr_of expr.now) ∷ []) }
{
    target.check_value(alloc, kinds, scope, expr, found)?;
    let form = target.core_value(alloc, kinds, scope, x, expr)?;
    Forms::one(alloc, form)
}

/// A call for the variable `x`.
fn call_for(
    alloc: Global,
    kinds: &Kinds<'_>,
    scope: &Scope<'_>,
    target: &Target,
    x: VarId,
    called: &Call,
    found: &mut LeastRefusal,
) -> Result<Forms, AllocError>
    ensures refused { OnOk result (found.new.least ≡ least_from found.old.least
        (c.call_refused (kinds_seen kinds.now) (scope_seen scope.now)
        (c.given (target_seen target.now)) (tree.call_of called.now))) }
    ensures forms { IfOk result (λ fs. forms_of fs
        ≡ c.core_call (kinds_seen kinds.now) (scope_seen scope.now)
        (c.given (target_seen target.now)) (Some x.0) (tree.call_of called.now) ∷ []) }
{
    let used = Use::Given(target);
    let form = call(alloc, kinds, scope, used, Some(x), called, found)?;
    Forms::one(alloc, form)
}

fn target_right(
    alloc: Global,
    kinds: &Kinds<'_>,
    scope: &Scope<'_>,
    target: &Target,
    x: VarId,
    hidden: VarId,
    right: &Right,
    found: &mut LeastRefusal,
) -> Result<Forms, AllocError>
    ensures refused { OnOk result (found.new.least
        ≡ least_from found.old.least (r.target_right_refused (kinds_seen kinds.now)
        (scope_seen scope.now) (target_seen target.now) (tree.right_of right.now))) }
    ensures forms { IfOk result (λ fs. forms_of fs
        ≡ r.target_right_forms (kinds_seen kinds.now) (scope_seen scope.now)
        (target_seen target.now) x.0 hidden.0 (tree.right_of right.now)) }
{
    match right {
        Right::Value(expr) => value(alloc, kinds, scope, target, x, expr, found),
        Right::Build(built) => {
            let form = build(alloc, kinds, scope, &target.ty, x, built, found)?;
            Forms::one(alloc, form)
        }
        Right::Call(called) => call_for(alloc, kinds, scope, target, x, called, found),
        Right::Input(at) => {
            check_input(&Ty::Int, &target.ty, at.from, found);
            Forms::one(alloc, Form::Input { v: x, more: false })
        }
        Right::More(at) => {
            check_input(&Ty::Bool, &target.ty, at.from, found);
            Forms::one(alloc, Form::Input { v: x, more: true })
        }
        Right::New {
            owner,
            named,
            fields,
            at,
        } => {
            let inits = fields.as_slice();
            check_new(
                alloc, kinds, scope, target, owner, named, inits, at.from, found,
            )?;
            new_forms(alloc, kinds, scope, target, x, hidden, owner, named, inits)
        }
        Right::Adopt {
            variable,
            owner,
            at,
        } => {
            check_adopt(kinds, scope, &target.ty, variable, owner, at.from, found);
            Forms::one(alloc, core_adopt(scope, x, variable, owner))
        }
    }
}

/// Tests a right side for the variable `x`, whose type is known.
#[tactic(auto, unfolding(vlt_elaboration::specs::Rights::right_refused, vlt_elaboration::specs::Rights::right_forms))]
pub fn right_for(
    alloc: Global,
    kinds: &Kinds<'_>,
    scope: &Scope<'_>,
    target: &Target,
    x: VarId,
    hidden: VarId,
    right: &Right,
    found: &mut LeastRefusal,
) -> Result<Forms, AllocError>
    ensures refused { OnOk result (found.new.least ≡ least_from found.old.least (r.right_refused
        (kinds_seen kinds.now) (scope_seen scope.now) (Some (target_seen target.now))
        (tree.right_of right.now))) }
    ensures forms { IfOk result (λ fs. forms_of fs
        ≡ r.right_forms (kinds_seen kinds.now) (scope_seen scope.now)
        (Some (target_seen target.now)) x.0 hidden.0 (tree.right_of right.now)) }
{
    target_right(alloc, kinds, scope, target, x, hidden, right, found)
}

/// Tests a right side for the variable `x` as its target, and gives what it becomes. That counts only where nothing is
/// refused. An unknown target is refused elsewhere, before the right side.
#[tactic(auto, unfolding(vlt_elaboration::specs::Rights::right_refused, vlt_elaboration::specs::Rights::right_forms))]
pub fn right(
    alloc: Global,
    kinds: &Kinds<'_>,
    scope: &Scope<'_>,
    target: &Option<Target>,
    x: VarId,
    hidden: VarId,
    right: &Right,
    found: &mut LeastRefusal,
) -> Result<Forms, AllocError>
    ensures refused { OnOk result (found.new.least ≡ least_from found.old.least (r.right_refused
        (kinds_seen kinds.now) (scope_seen scope.now) (option_map target_seen target.now)
        (tree.right_of right.now))) }
    ensures forms { IfOk result (λ fs. forms_of fs
        ≡ r.right_forms (kinds_seen kinds.now) (scope_seen scope.now)
        (option_map target_seen target.now) x.0 hidden.0 (tree.right_of right.now)) }
{
    match target {
        None => Ok(Forms::Nothing),
        Some(target) => target_right(alloc, kinds, scope, target, x, hidden, right, found),
    }
}
