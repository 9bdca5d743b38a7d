//! The steps of a walk beside the statements in blocks: what was found, conditions, switches, arms and focuses, and what is made.

ghost use Rattle.std.specs.Prelude.{◌≡◌, ◌++◌, ◌∷◌, [], map, option_map, Some, None, IfOk, OnOk};
ghost use Rattle.vlt_syntax.specs.View as tree;
ghost use Rattle.vlt_core.specs.Core as core;
ghost use Rattle.vlt_core.specs.View as core_view;
ghost use Rattle.vlt_core.specs.View.{form_of, ty_of};
ghost use Rattle.vlt_kinds_types.specs.Names.Refusals.{least_from};
ghost use Rattle.vlt_kinds_types.specs.Seen.{kinds_seen};
ghost use Rattle.vlt_resolve_exprs.specs.Exprs as e;
ghost use Rattle.vlt_resolve_exprs.specs.Scopes.{var_ty};
ghost use Rattle.vlt_resolve_exprs.specs.Seen.{scope_seen, left_with, forms_of};
ghost use Rattle.vlt_resolve_calls.specs.Seen.{case_seen};
ghost use Rattle.vlt_resolve_parts.specs.Refusals.{OnRefused};
ghost use Rattle.vlt_elaboration.specs.Switches as sw;
ghost use Rattle.vlt_elaboration.specs.Walk as w;

use crate::stop::Stop;
use crate::switches::{arm_case, arm_names, bind_arm, bind_focus, case_number, check_switch};
use std::alloc::{AllocError, Global};
use vlt_base::{Boxed, Items, VarId};
use vlt_core::{Form, Ty};
use vlt_kinds_types::{Kinds, LeastRefusal};
use vlt_resolve_calls::Case;
use vlt_resolve_exprs::{Forms, Outer, Scope, check_wanted, copy_ty, core_expr};
use vlt_syntax::{Arm, Expr, Name};

/// The type of a variable, where it is known.
pub fn known_ty(alloc: Global, scope: &Scope<'_>, name: &Name) -> Result<Option<Ty>, AllocError>
    ensures { IfOk result (λ t. option_map ty_of t
        ≡ var_ty (scope_seen scope.now) (tree.name_of name.now).text) }
{
    match scope.var_ty(name.text.as_slice()) {
        None => Ok(None),
        Some(ty) => Ok(Some(copy_ty(alloc, ty)?)),
    }
}

/// Goes on where nothing was found.
pub fn passed(found: LeastRefusal) -> Result<(), Stop>
    ensures ok { OnOk result (found.least ≡ None) }
    ensures refused { OnRefused result (λ r. found.least ≡ Some r) }
{
    match found.least {
        None => Ok(()),
        Some(refusal) => Err(Stop::Refused(refusal)),
    }
}

/// Gives the forms where nothing was found.
pub fn passed_with(found: LeastRefusal, forms: Forms) -> Result<Forms, Stop>
    ensures ok { IfOk result (λ fs. (found.least ≡ None) × (forms_of fs ≡ forms_of forms)) }
    ensures refused { OnRefused result (λ r. found.least ≡ Some r) }
{
    match found.least {
        None => Ok(forms),
        Some(refusal) => Err(Stop::Refused(refusal)),
    }
}

fn add_form(at: u32, form: Boxed<Form>, made: &mut Items<vlt_core::Stmt>) -> Result<(), AllocError>
    ensures { OnOk result (map core_view.stmt_of made.new
        ≡ map core_view.stmt_of made.old ++ (at, form_of form) ∷ []) }
{
    let form = form.into_inner();
    made.push(vlt_core::Stmt { at, form })
}

/// Adds the forms that a statement became, each at its place.
pub fn add_placed(at: u32, forms: Forms, made: &mut Items<vlt_core::Stmt>) -> Result<(), AllocError>
    ensures { OnOk result (map core_view.stmt_of made.new
        ≡ map core_view.stmt_of made.old ++ w.placed_at at (forms_of forms)) }
{
    match forms {
        Forms::Nothing => {}
        Forms::One(form) => add_form(at, form, made)?,
        Forms::Two(first, second) => {
            add_form(at, first, made)?;
            add_form(at, second, made)?;
        }
    }
    Ok(())
}

/// A condition, where something may have been found before.
pub fn tested(
    alloc: Global,
    kinds: &Kinds<'_>,
    scope: &Scope<'_>,
    found: LeastRefusal,
    condition: &Expr,
) -> Result<vlt_core::Expr, Stop>
    ensures ok { IfOk result (λ c. (least_from found.least
        (e.wanted_refused (kinds_seen kinds.now) (scope_seen scope.now) (Some core.bool)
        (tree.expr_of condition.now)) ≡ None) ×
        (core_view.expr_of c ≡ e.core_expr (kinds_seen kinds.now) (scope_seen scope.now)
        (tree.expr_of condition.now))) }
    ensures refused { OnRefused result (λ r.
        least_from found.least (e.wanted_refused (kinds_seen kinds.now) (scope_seen scope.now)
        (Some core.bool) (tree.expr_of condition.now)) ≡ Some r) }
{
    let mut found = found;
    check_wanted(alloc, kinds, scope, &Some(Ty::Bool), condition, &mut found)?;
    passed(found)?;
    let cond = core_expr(alloc, kinds, scope, condition)?;
    Ok(cond)
}

/// The type of the variable of a switch, where something may have been found before.
pub fn switched(
    alloc: Global,
    kinds: &Kinds<'_>,
    scope: &Scope<'_>,
    found: LeastRefusal,
    variable: &Name,
    arms: &[Arm],
    at: u32,
) -> Result<Option<Ty>, Stop>
    ensures ok { IfOk result (λ t. (least_from found.least
        (sw.switch_refused (kinds_seen kinds.now)
        (var_ty (scope_seen scope.now) (tree.name_of variable.now).text)
        (tree.name_of variable.now) (sw.arm_names (tree.arms_of arms.now)) at) ≡ None) ×
        (option_map ty_of t ≡ var_ty (scope_seen scope.now) (tree.name_of variable.now).text)) }
    ensures refused { OnRefused result (λ r.
        least_from found.least (sw.switch_refused (kinds_seen kinds.now)
        (var_ty (scope_seen scope.now) (tree.name_of variable.now).text)
        (tree.name_of variable.now) (sw.arm_names (tree.arms_of arms.now)) at) ≡ Some r) }
{
    let mut found = found;
    let ty = known_ty(alloc, scope, variable)?;
    let names = arm_names(alloc, arms)?;
    check_switch(
        alloc,
        kinds,
        &ty,
        variable,
        names.as_slice(),
        at,
        &mut found,
    )?;
    passed(found)?;
    Ok(ty)
}

/// Binds what a focus binds, where something may have been found before.
pub fn focused<'a>(
    alloc: Global,
    kinds: &Kinds<'_>,
    scope: &mut Scope<'a>,
    found: LeastRefusal,
    ty: &Option<Ty>,
    variable: &Name,
    key: &'a Name,
    alias: &'a Name,
) -> Result<(), Stop>
    ensures ok { OnOk result ((least_from found.least
        (sw.focus_refused (kinds_seen kinds.now) (scope_seen scope.old)
        (option_map ty_of ty.now) (tree.name_of variable.now) (tree.name_of key.now)
        (tree.name_of alias.now)) ≡ None) × (scope_seen scope.new
        ≡ sw.bound_scope (scope_seen scope.old) (option_map ty_of ty.now) (tree.name_of key.now)
        (tree.name_of alias.now))) }
    ensures refused { OnRefused result (λ r.
        least_from found.least (sw.focus_refused (kinds_seen kinds.now) (scope_seen scope.old)
        (option_map ty_of ty.now) (tree.name_of variable.now) (tree.name_of key.now)
        (tree.name_of alias.now)) ≡ Some r) }
{
    let mut found = found;
    bind_focus(alloc, kinds, scope, ty, variable, key, alias, &mut found)?;
    passed(found)
}

/// Binds the variables of an arm.
fn bound_arm<'a>(
    alloc: Global,
    kinds: &Kinds<'_>,
    scope: &mut Scope<'a>,
    case: &Option<Case>,
    tick: &Name,
    names: &'a [Name],
) -> Result<Items<VarId>, Stop>
    ensures ok { IfOk result (λ vs. (least_from None
        (sw.arm_refused (kinds_seen kinds.now) (scope_seen scope.old)
        (option_map case_seen case.now) (tree.name_of tick.now) (tree.names_of names.now))
        ≡ None) × (scope_seen scope.new ≡ sw.arm_scope (scope_seen scope.old)
        (option_map case_seen case.now) (tree.names_of names.now)) ×
        (core_view.vars_of vs ≡ sw.arm_numbers (scope_seen scope.old)
        (option_map case_seen case.now) (tree.names_of names.now))) }
    ensures refused { OnRefused result (λ r.
        least_from None (sw.arm_refused (kinds_seen kinds.now) (scope_seen scope.old)
        (option_map case_seen case.now) (tree.name_of tick.now) (tree.names_of names.now))
        ≡ Some r) }
{
    let mut found = LeastRefusal { least: None };
    let vars = bind_arm(alloc, kinds, scope, case, tick, names, &mut found)?;
    passed(found)?;
    Ok(vars)
}

/// Opens an arm of a switch on a variable of this type: its case, and its variables, which it binds.
pub fn opened_arm<'a>(
    alloc: Global,
    kinds: &Kinds<'_>,
    scope: &mut Scope<'a>,
    ty: &Option<Ty>,
    tick: &Name,
    names: &'a [Name],
) -> Result<(u8, Items<VarId>), Stop>
    ensures ok { IfOk result (λ p. (least_from None
        (sw.arm_refused (kinds_seen kinds.now) (scope_seen scope.old)
        (sw.arm_case (kinds_seen kinds.now) (option_map ty_of ty.now) (tree.name_of tick.now))
        (tree.name_of tick.now) (tree.names_of names.now)) ≡ None) ×
        (scope_seen scope.new ≡ sw.arm_scope (scope_seen scope.old)
        (sw.arm_case (kinds_seen kinds.now) (option_map ty_of ty.now) (tree.name_of tick.now))
        (tree.names_of names.now)) ×
        (p.0 ≡ sw.case_number (sw.arm_case (kinds_seen kinds.now) (option_map ty_of ty.now)
        (tree.name_of tick.now))) ×
        (core_view.vars_of p.1 ≡ sw.arm_numbers (scope_seen scope.old)
        (sw.arm_case (kinds_seen kinds.now) (option_map ty_of ty.now) (tree.name_of tick.now))
        (tree.names_of names.now))) }
    ensures refused { OnRefused result (λ r.
        least_from None (sw.arm_refused (kinds_seen kinds.now) (scope_seen scope.old)
        (sw.arm_case (kinds_seen kinds.now) (option_map ty_of ty.now) (tree.name_of tick.now))
        (tree.name_of tick.now) (tree.names_of names.now)) ≡ Some r) }
{
    let case = arm_case(alloc, kinds, ty, tick)?;
    let vars = bound_arm(alloc, kinds, scope, &case, tick, names)?;
    Ok((case_number(&case), vars))
}

/// A block of one statement, which binds nothing.
pub fn one_stmt(alloc: Global, at: u32, form: Form, end: u32) -> Result<vlt_core::Block, AllocError>
    ensures { IfOk result (λ b. core_view.block_of b
        ≡ core.block (core.next at (form_of form) core.done) [] end) }
{
    let mut stmts = Items::new(alloc);
    stmts.push(vlt_core::Stmt { at, form })?;
    Ok(vlt_core::Block {
        stmts,
        bound: Items::new(alloc),
        end,
    })
}

/// Closes a block: its statements, and what it bound.
pub fn close_block(
    alloc: Global,
    scope: &mut Scope<'_>,
    outer: Outer,
    stmts: Items<vlt_core::Stmt>,
    end: u32,
) -> Result<vlt_core::Block, AllocError>
    ensures block { IfOk result (λ b. core_view.block_of b
        ≡ w.block_made (map core_view.stmt_of stmts, scope_seen scope.old) end) }
    ensures scope { OnOk result (scope_seen scope.new ≡ left_with outer (scope_seen scope.old)) }
{
    let bound = scope.bound(alloc)?;
    scope.leave(outer);
    Ok(vlt_core::Block { stmts, bound, end })
}
