//! What is handed over: arguments, payloads, the values of fields, and what is returned.

ghost use Rattle.std.specs.Prelude.{◌≡◌, map, option_map, length, IfOk, OnOk};
ghost use Rattle.vlt_base.specs.States.{has_state};
ghost use Rattle.vlt_syntax.specs.View as tree;
ghost use Rattle.vlt_core.specs.View.{ty_of, expr_of, operand_of};
ghost use Rattle.vlt_kinds_types.specs.Names.Refusals.{least_from};
ghost use Rattle.vlt_kinds_types.specs.Seen.{kinds_seen};
ghost use Rattle.vlt_resolve_exprs.specs.Exprs as e;
ghost use Rattle.vlt_resolve_exprs.specs.Least.{operands_found};
ghost use Rattle.vlt_resolve_exprs.specs.Operands as o;
ghost use Rattle.vlt_resolve_exprs.specs.Seen.{scope_seen};

use crate::exprs::{check_any, core_expr, place, type_of};
use crate::scope::Scope;
use crate::types::takes;
use std::alloc::{AllocError, Global};
use vlt_base::{Items, StateSet, VarId};
use vlt_core::rules::WRONG_TYPE;
use vlt_core::{self, Operand, Ty};
use vlt_kinds_types::{Kinds, LeastRefusal};
use vlt_syntax::Expr;

#[tactic(auto, unfolding(crate::specs::Operands::misfit))]
pub fn check_misfit(wanted: &Ty, given: &Option<Ty>, at: u32, found: &mut LeastRefusal)
    ensures { found.new.least ≡ least_from found.old.least
        (o.misfit (ty_of wanted.now) (option_map ty_of given.now) at) }
{
    match given {
        Some(ty) => {
            found.add_if(!takes(wanted, ty), WRONG_TYPE, at);
        }
        None => {}
    }
}

/// What is refused in an operand for a target of this type.
#[tactic(auto, using(vlt_kinds_types::proofs::OfNames::Least::least_of_both), unfolding(crate::specs::Operands::operand_refused))]
pub fn check_operand(
    alloc: Global,
    kinds: &Kinds<'_>,
    scope: &Scope<'_>,
    wanted: &Ty,
    expr: &Expr,
    found: &mut LeastRefusal,
) -> Result<(), AllocError>
    ensures { OnOk result (found.new.least ≡ least_from found.old.least
        (o.operand_refused (kinds_seen kinds.now) (scope_seen scope.now) (ty_of wanted.now)
        (tree.expr_of expr.now))) }
{
    let given = check_any(alloc, kinds, scope, expr, found)?;
    check_misfit(wanted, &given, place(expr), found);
    Ok(())
}

fn check_each_operand(
    alloc: Global,
    kinds: &Kinds<'_>,
    scope: &Scope<'_>,
    wanted: &[Ty],
    exprs: &[Expr],
    found: &mut LeastRefusal,
) -> Result<(), AllocError>
    requires { length wanted.now ≡ length exprs.now }
    ensures { OnOk result (found.new.least ≡ operands_found (kinds_seen kinds.now)
        (scope_seen scope.now) (map ty_of wanted.now)
        (map tree.expr_of exprs.now) found.old.least) }
{
    for (i, expr) in exprs.iter().enumerate() {
        check_operand(alloc, kinds, scope, &wanted[i], expr, found)?;
    }
    Ok(())
}

/// What is refused in operands, one for each target.
#[tactic(auto, using(crate::proofs::Operators::operands_are))]
pub fn check_operands(
    alloc: Global,
    kinds: &Kinds<'_>,
    scope: &Scope<'_>,
    wanted: &[Ty],
    exprs: &[Expr],
    found: &mut LeastRefusal,
) -> Result<(), AllocError>
    requires { length wanted.now ≡ length exprs.now }
    ensures { OnOk result (found.new.least ≡ least_from found.old.least
        (o.operands_refused (kinds_seen kinds.now) (scope_seen scope.now) (map ty_of wanted.now)
        (map tree.expr_of exprs.now))) }
{
    check_each_operand(alloc, kinds, scope, wanted, exprs, found)
}

/// The variable that an expression is.
fn variable_in(expr: &vlt_core::Expr) -> VarId
    ensures { result.0 ≡ o.variable_in (expr_of expr.now) }
{
    match expr {
        vlt_core::Expr::Var(v) => *v,
        _ => VarId(0),
    }
}

fn object_operand(states: StateSet, got: &Option<Ty>, v: VarId) -> Operand
    ensures { operand_of result ≡ o.object_operand (has_state states)
        (option_map ty_of got.now) v.0 }
{
    match got {
        Some(Ty::Key(..)) => Operand::Pack(v, states),
        _ => Operand::Move(v),
    }
}

/// The variable that an expression becomes.
pub fn core_variable(
    alloc: Global,
    kinds: &Kinds<'_>,
    scope: &Scope<'_>,
    expr: &Expr,
) -> Result<VarId, AllocError>
    ensures { IfOk result (λ v. v.0 ≡ o.variable_in
        (e.core_expr (kinds_seen kinds.now) (scope_seen scope.now) (tree.expr_of expr.now))) }
{
    let made = core_expr(alloc, kinds, scope, expr)?;
    Ok(variable_in(&made))
}

/// What an operand becomes. Its own type counts only for an owning target.
#[tactic(auto, unfolding(crate::specs::Operands::core_operand, crate::specs::Operands::operand_for))]
pub fn core_operand(
    alloc: Global,
    kinds: &Kinds<'_>,
    scope: &Scope<'_>,
    wanted: &Ty,
    expr: &Expr,
) -> Result<Operand, AllocError>
    ensures { IfOk result (λ r. operand_of r
        ≡ o.core_operand (kinds_seen kinds.now) (scope_seen scope.now) (ty_of wanted.now)
        (tree.expr_of expr.now)) }
{
    match wanted {
        Ty::Own(states, ..) => {
            let v = core_variable(alloc, kinds, scope, expr)?;
            let got = type_of(alloc, kinds, scope, expr)?;
            Ok(object_operand(*states, &got, v))
        }
        Ty::OwnVar(..) => {
            let v = core_variable(alloc, kinds, scope, expr)?;
            Ok(Operand::Move(v))
        }
        _ => {
            let made = core_expr(alloc, kinds, scope, expr)?;
            Ok(Operand::Pure(made))
        }
    }
}

/// What operands become, one for each target.
pub fn core_operands(
    alloc: Global,
    kinds: &Kinds<'_>,
    scope: &Scope<'_>,
    exprs: &[Expr],
    wanted: &[Ty],
) -> Result<Items<Operand>, AllocError>
    ensures { IfOk result (λ r. map operand_of r
        ≡ o.core_operands (kinds_seen kinds.now) (scope_seen scope.now)
        (map tree.expr_of exprs.now) (map ty_of wanted.now)) }
{
    let mut made = Items::new(alloc);
    for (i, expr) in exprs.iter().enumerate() {
        match wanted.get(i) {
            Some(ty) => made.push(core_operand(alloc, kinds, scope, ty, expr)?)?,
            None => return Ok(made),
        }
    }
    Ok(made)
}
