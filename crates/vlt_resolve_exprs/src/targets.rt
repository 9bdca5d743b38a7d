//! The target of a right side, and an expression for it.

ghost use Rattle.std.specs.Prelude.{◌≡◌, option_map, IfOk, OnOk};
ghost use Rattle.vlt_syntax.specs.View as tree;
ghost use Rattle.vlt_core.specs.Core as core;
ghost use Rattle.vlt_core.specs.View.{ty_of, expr_of, form_of};
ghost use Rattle.vlt_kinds_types.specs.Names.Refusals.{least_from};
ghost use Rattle.vlt_kinds_types.specs.Seen.{kinds_seen};
ghost use Rattle.vlt_resolve_exprs.specs.Seen.{scope_seen, target_seen};
ghost use Rattle.vlt_resolve_exprs.specs.Targets as t;

use crate::exprs::{check_any, core_expr, place};
use crate::operands::{core_operand, core_variable};
use crate::scope::Scope;
use crate::types::{is_owning, takes, unpacks};
use std::alloc::{AllocError, Global};
use vlt_base::VarId;
use vlt_core::rules::WRONG_TYPE;
use vlt_core::{self, Form, Ty};
use vlt_kinds_types::{Kinds, LeastRefusal};
use vlt_syntax::Expr;

/// The type of a target, and whether its key is bound with it.
#[derive(Drop)]
pub struct Target {
    pub ty: Ty,
    pub binds: bool,
}

impl Target {
    #[tactic(auto, unfolding(crate::specs::Targets::target_takes))]
    fn takes(&self, got: &Ty) -> bool
        ensures { result ≡ t.target_takes (target_seen self.now) (ty_of got.now) }
    {
        if self.binds {
            unpacks(&self.ty, got)
        } else {
            takes(&self.ty, got)
        }
    }

    #[tactic(auto, unfolding(crate::specs::Targets::value_misfit))]
    fn check_given(&self, given: &Option<Ty>, at: u32, found: &mut LeastRefusal)
        ensures { found.new.least ≡ least_from found.old.least
            (t.value_misfit (target_seen self.now) (option_map ty_of given.now) at) }
    {
        match given {
            Some(ty) => found.add_if(!self.takes(ty), WRONG_TYPE, at),
            None => {}
        }
    }

    #[tactic(auto, using(vlt_kinds_types::proofs::OfNames::Least::least_of_both), unfolding(crate::specs::Targets::value_refused))]
    pub fn check_value(
        &self,
        alloc: Global,
        kinds: &Kinds<'_>,
        scope: &Scope<'_>,
        expr: &Expr,
        found: &mut LeastRefusal,
    ) -> Result<(), AllocError>
        ensures { OnOk result (found.new.least ≡ least_from found.old.least
            (t.value_refused (kinds_seen kinds.now) (scope_seen scope.now) (target_seen self.now)
            (tree.expr_of expr.now))) }
    {
        let given = check_any(alloc, kinds, scope, expr, found)?;
        self.check_given(&given, place(expr), found);
        Ok(())
    }

    #[tactic(auto, unfolding(crate::specs::Targets::core_value, crate::specs::Targets::value_form, crate::specs::Operands::core_operand))]
    pub fn core_value(
        &self,
        alloc: Global,
        kinds: &Kinds<'_>,
        scope: &Scope<'_>,
        x: VarId,
        expr: &Expr,
    ) -> Result<Form, AllocError>
        ensures { IfOk result (λ f. form_of f
            ≡ t.core_value (kinds_seen kinds.now) (scope_seen scope.now)
            (target_seen self.now) x.0 (tree.expr_of expr.now)) }
    {
        if self.binds {
            let v = core_variable(alloc, kinds, scope, expr)?;
            Ok(Form::Unpack { x, v })
        } else if is_owning(&self.ty) {
            let value = core_operand(alloc, kinds, scope, &self.ty, expr)?;
            Ok(Form::Own { v: x, value })
        } else {
            let e = core_expr(alloc, kinds, scope, expr)?;
            Ok(Form::Set { v: x, e })
        }
    }
}
