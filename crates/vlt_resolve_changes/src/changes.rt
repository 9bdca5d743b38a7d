//! Statements without blocks that bind nothing: `x.f = e`, `release`, `become` and `swap`.

ghost use Rattle.std.specs.Prelude.{◌≡◌, ◌∷◌, [], option_map, IfOk, OnOk};
ghost use Rattle.vlt_syntax.specs.View as tree;
ghost use Rattle.vlt_core.specs.View.{ty_of, form_of, field_of, keys_of};
ghost use Rattle.vlt_kinds_types.specs.Names.Refusals.{least_from};
ghost use Rattle.vlt_kinds_types.specs.Seen.{kinds_seen};
ghost use Rattle.vlt_resolve_exprs.specs.Exprs as e;
ghost use Rattle.vlt_resolve_exprs.specs.Scopes.{var_ty};
ghost use Rattle.vlt_resolve_exprs.specs.Seen.{scope_seen, forms_of};
ghost use Rattle.vlt_elaboration.specs.Statements as s;

use std::alloc::{AllocError, Global};
use vlt_base::{KeyId, TypeId, VarId};
use vlt_core::rules::{
    NOT_A_STATE, UNKNOWN_NAME, WRONG_BECOME, WRONG_RELEASE, WRONG_SWAP, WRONG_TYPE,
};
use vlt_core::{FieldDecl, Form, Ty};
use vlt_kinds_types::{Kinds, LeastRefusal};
use vlt_resolve_exprs::{
    Forms, Scope, check_field, check_known, check_wanted, core_expr, field_at, field_named,
    is_owning, is_struct, same_ty, ty_under, var_number,
};
use vlt_resolve_rights::droppable::{may_drop, may_drop_struct};
use vlt_syntax::{Expr, Name};

// ---- x.f = e

#[tactic(auto, using(vlt_kinds_types::proofs::OfNames::Least::least_of_both), unfolding(vlt_elaboration::specs::Statements::put_refused))]
fn check_put(
    alloc: Global,
    kinds: &Kinds<'_>,
    scope: &Scope<'_>,
    base: &Name,
    field: &Name,
    value: &Expr,
    found: &mut LeastRefusal,
) -> Result<(), AllocError>
    ensures { OnOk result (found.new.least ≡ least_from found.old.least
        (s.put_refused (kinds_seen kinds.now) (scope_seen scope.now) (tree.name_of base.now)
        (tree.name_of field.now) (tree.expr_of value.now))) }
{
    let wanted = check_field(alloc, kinds, scope, base, field, found)?;
    check_wanted(alloc, kinds, scope, &wanted, value, found)
}

/// Tests `x.f = e`, and makes it. What it makes counts only where nothing is refused.
#[tactic(auto, unfolding(vlt_elaboration::specs::Statements::core_put))]
pub fn put(
    alloc: Global,
    kinds: &Kinds<'_>,
    scope: &Scope<'_>,
    base: &Name,
    field: &Name,
    value: &Expr,
    found: &mut LeastRefusal,
) -> Result<Forms, AllocError>
    ensures refused { OnOk result (found.new.least
        ≡ least_from found.old.least (s.put_refused (kinds_seen kinds.now)
        (scope_seen scope.now) (tree.name_of base.now) (tree.name_of field.now)
        (tree.expr_of value.now))) }
    ensures forms { IfOk result (λ fs. forms_of fs
        ≡ s.core_put (kinds_seen kinds.now) (scope_seen scope.now) (tree.name_of base.now)
        (tree.name_of field.now) (tree.expr_of value.now) ∷ []) }
{
    check_put(alloc, kinds, scope, base, field, value, found)?;
    let (x, field) = field_at(kinds, scope, base, field)?;
    let e = core_expr(alloc, kinds, scope, value)?;
    Forms::one(alloc, Form::Put { x, field, e })
}

// ---- release x

fn is_releasable(kinds: &Kinds<'_>, ty: &Ty) -> bool
    ensures { result ≡ s.is_releasable (kinds_seen kinds.now) (ty_of ty.now) }
{
    match ty {
        Ty::Key(_, t, _) => may_drop_struct(kinds, *t),
        _ => may_drop(kinds, ty),
    }
}

#[tactic(auto, unfolding(vlt_elaboration::specs::Statements::release_refused))]
fn check_release(kinds: &Kinds<'_>, ty: Option<&Ty>, name: &Name, found: &mut LeastRefusal)
    ensures { found.new.least ≡ least_from found.old.least
        (s.release_refused (kinds_seen kinds.now) (option_map (λ t. ty_of t.now) ty.entry)
        (tree.name_of name.now)) }
{
    match ty {
        None => found.add(UNKNOWN_NAME, name.at.from),
        Some(ty) => found.add_if(!is_releasable(kinds, ty), WRONG_RELEASE, name.at.from),
    }
}

#[tactic(auto, unfolding(vlt_elaboration::specs::Statements::release_form))]
fn release_form(ty: Option<&Ty>, v: VarId) -> Form
    ensures { form_of result ≡ s.release_form (option_map (λ t. ty_of t.now) ty.entry) v.0 }
{
    match ty {
        Some(Ty::Key(..)) => Form::Release { x: v },
        _ => Form::Drop { v },
    }
}

/// Tests `release`, and makes it. What it makes counts only where nothing is refused.
pub fn release(
    alloc: Global,
    kinds: &Kinds<'_>,
    scope: &Scope<'_>,
    name: &Name,
    found: &mut LeastRefusal,
) -> Result<Forms, AllocError>
    ensures refused { OnOk result (found.new.least ≡ least_from found.old.least
        (s.release_refused (kinds_seen kinds.now)
        (var_ty (scope_seen scope.now) (tree.name_of name.now).text) (tree.name_of name.now))) }
    ensures forms { IfOk result (λ fs. forms_of fs ≡ s.release_form
        (var_ty (scope_seen scope.now) (tree.name_of name.now).text)
        (e.var_number (scope_seen scope.now) (tree.name_of name.now)) ∷ []) }
{
    let ty = scope.var_ty(name.text.as_slice());
    check_release(kinds, ty, name, found);
    Forms::one(alloc, release_form(ty, var_number(scope, name)))
}

// ---- become x@s

#[tactic(auto, unfolding(vlt_elaboration::specs::Statements::state_of, vlt_kinds_types::specs::Files::shape_at))]
fn state_of(kinds: &Kinds<'_>, t: TypeId, name: &Name) -> Option<u8>
    ensures { result ≡ s.state_of (kinds_seen kinds.now) t.0 (tree.name_of name.now) }
{
    kinds
        .file
        .state_names(kinds.file.shape_at(t.0))
        .number(name)
}

#[tactic(auto, unfolding(vlt_elaboration::specs::Statements::state_refused))]
fn check_state(kinds: &Kinds<'_>, t: TypeId, name: &Name, state: &Name, found: &mut LeastRefusal)
    ensures { found.new.least ≡ least_from found.old.least
        (s.state_refused (kinds_seen kinds.now) t.0 (tree.name_of name.now)
        (tree.name_of state.now)) }
{
    if is_struct(kinds.types.get(t.0 as usize)) {
        found.add_if(
            !state_of(kinds, t, state).is_some(),
            NOT_A_STATE,
            state.at.from,
        );
    } else {
        found.add(WRONG_BECOME, name.at.from);
    }
}

#[tactic(auto, unfolding(vlt_elaboration::specs::Statements::become_refused))]
fn check_become(
    kinds: &Kinds<'_>,
    ty: Option<&Ty>,
    name: &Name,
    state: &Name,
    found: &mut LeastRefusal,
)
    ensures { found.new.least ≡ least_from found.old.least
        (s.become_refused (kinds_seen kinds.now) (option_map (λ t. ty_of t.now) ty.entry)
        (tree.name_of name.now) (tree.name_of state.now)) }
{
    match ty {
        None => found.add(UNKNOWN_NAME, name.at.from),
        Some(Ty::Key(_, t, _)) => check_state(kinds, *t, name, state, found),
        Some(_) => found.add(WRONG_BECOME, name.at.from),
    }
}

fn tracked_type(ty: Option<&Ty>) -> TypeId
    ensures { result.0 ≡ s.tracked_type (option_map (λ t. ty_of t.now) ty.entry) }
{
    match ty {
        Some(Ty::Key(_, t, _)) => *t,
        _ => TypeId(0),
    }
}

#[tactic(auto, unfolding(vlt_elaboration::specs::Statements::core_become))]
fn become_form(kinds: &Kinds<'_>, scope: &Scope<'_>, name: &Name, state: &Name) -> Form
    ensures { form_of result ≡ s.core_become (kinds_seen kinds.now) (scope_seen scope.now)
        (tree.name_of name.now) (tree.name_of state.now) }
{
    let t = tracked_type(scope.var_ty(name.text.as_slice()));
    let number = match state_of(kinds, t, state) {
        Some(number) => number,
        None => 0,
    };
    Form::Become {
        x: var_number(scope, name),
        state: number,
    }
}

/// Tests `become`, and makes it. What it makes counts only where nothing is refused.
pub fn change_state(
    alloc: Global,
    kinds: &Kinds<'_>,
    scope: &Scope<'_>,
    name: &Name,
    state: &Name,
    found: &mut LeastRefusal,
) -> Result<Forms, AllocError>
    ensures refused { OnOk result (found.new.least ≡ least_from found.old.least
        (s.become_refused (kinds_seen kinds.now)
        (var_ty (scope_seen scope.now) (tree.name_of name.now).text) (tree.name_of name.now)
        (tree.name_of state.now))) }
    ensures forms { IfOk result (λ fs. forms_of fs
        ≡ s.core_become (kinds_seen kinds.now) (scope_seen scope.now)
        (tree.name_of name.now) (tree.name_of state.now) ∷ []) }
{
    let ty = scope.var_ty(name.text.as_slice());
    check_become(kinds, ty, name, state, found);
    Forms::one(alloc, become_form(kinds, scope, name, state))
}

// ---- swap x.f, v

fn check_swapped(wanted: &Ty, given: Option<&Ty>, name: &Name, found: &mut LeastRefusal)
    ensures { found.new.least ≡ least_from found.old.least
        (s.swapped_misfit (ty_of wanted.now) (option_map (λ t. ty_of t.now) given.entry)
        (tree.name_of name.now)) }
{
    match given {
        None => {}
        Some(ty) => found.add_if(!same_ty(ty, wanted), WRONG_TYPE, name.at.from),
    }
}

#[tactic(auto, unfolding(vlt_elaboration::specs::Statements::owner_refused))]
fn check_owner(
    alloc: Global,
    args: &[KeyId],
    decl: &FieldDecl,
    given: Option<&Ty>,
    base: &Name,
    variable: &Name,
    found: &mut LeastRefusal,
) -> Result<(), AllocError>
    ensures { OnOk result (found.new.least ≡ least_from found.old.least
        (s.owner_refused (keys_of args.now) (field_of decl.now)
        (option_map (λ t. ty_of t.now) given.entry) (tree.name_of base.now)
        (tree.name_of variable.now))) }
{
    if is_owning(&decl.ty) {
        let wanted = ty_under(alloc, args, &decl.ty)?;
        check_swapped(&wanted, given, variable, found);
    } else {
        found.add(WRONG_SWAP, base.at.from);
    }
    Ok(())
}

fn check_swapped_field(
    alloc: Global,
    args: &[KeyId],
    decl: Option<&FieldDecl>,
    given: Option<&Ty>,
    base: &Name,
    field: &Name,
    variable: &Name,
    found: &mut LeastRefusal,
) -> Result<(), AllocError>
    ensures { OnOk result (found.new.least ≡ least_from found.old.least
        (s.swapped_field_refused (keys_of args.now)
        (option_map (λ d. field_of d.now) decl.entry)
        (option_map (λ t. ty_of t.now) given.entry) (tree.name_of base.now)
        (tree.name_of field.now) (tree.name_of variable.now))) }
{
    match decl {
        None => {
            found.add(UNKNOWN_NAME, field.at.from);
            Ok(())
        }
        Some(decl) => check_owner(alloc, args, decl, given, base, variable, found),
    }
}

#[tactic(auto, unfolding(vlt_elaboration::specs::Statements::base_refused))]
fn check_base(
    alloc: Global,
    kinds: &Kinds<'_>,
    ty: Option<&Ty>,
    given: Option<&Ty>,
    base: &Name,
    field: &Name,
    variable: &Name,
    found: &mut LeastRefusal,
) -> Result<(), AllocError>
    ensures { OnOk result (found.new.least ≡ least_from found.old.least
        (s.base_refused (kinds_seen kinds.now) (option_map (λ t. ty_of t.now) ty.entry)
        (option_map (λ t. ty_of t.now) given.entry) (tree.name_of base.now)
        (tree.name_of field.now) (tree.name_of variable.now))) }
{
    match ty {
        None => {
            found.add(UNKNOWN_NAME, base.at.from);
            Ok(())
        }
        Some(Ty::Key(_, t, args)) => {
            check_swapped_field(
                alloc,
                args.as_slice(),
                field_named(kinds, *t, field),
                given,
                base,
                field,
                variable,
                found,
            )
        }
        Some(_) => {
            found.add(WRONG_SWAP, base.at.from);
            Ok(())
        }
    }
}

#[tactic(auto, using(vlt_kinds_types::proofs::OfNames::Least::least_of_both), unfolding(vlt_elaboration::specs::Statements::swap_refused))]
fn check_swap(
    alloc: Global,
    kinds: &Kinds<'_>,
    scope: &Scope<'_>,
    base: &Name,
    field: &Name,
    variable: &Name,
    found: &mut LeastRefusal,
) -> Result<(), AllocError>
    ensures { OnOk result (found.new.least ≡ least_from found.old.least
        (s.swap_refused (kinds_seen kinds.now) (scope_seen scope.now) (tree.name_of base.now)
        (tree.name_of field.now) (tree.name_of variable.now))) }
{
    let ty = scope.var_ty(base.text.as_slice());
    let given = scope.var_ty(variable.text.as_slice());
    check_base(alloc, kinds, ty, given, base, field, variable, found)?;
    check_known(scope, variable, found);
    Ok(())
}

/// Tests `swap`, and makes it. What it makes counts only where nothing is refused.
#[tactic(auto, unfolding(vlt_elaboration::specs::Statements::core_swap))]
pub fn swap(
    alloc: Global,
    kinds: &Kinds<'_>,
    scope: &Scope<'_>,
    base: &Name,
    field: &Name,
    variable: &Name,
    found: &mut LeastRefusal,
) -> Result<Forms, AllocError>
    ensures refused { OnOk result (found.new.least
        ≡ least_from found.old.least (s.swap_refused (kinds_seen kinds.now)
        (scope_seen scope.now) (tree.name_of base.now) (tree.name_of field.now)
        (tree.name_of variable.now))) }
    ensures forms { IfOk result (λ fs. forms_of fs
        ≡ s.core_swap (kinds_seen kinds.now) (scope_seen scope.now) (tree.name_of base.now)
        (tree.name_of field.now) (tree.name_of variable.now) ∷ []) }
{
    check_swap(alloc, kinds, scope, base, field, variable, found)?;
    let (x, field) = field_at(kinds, scope, base, field)?;
    let v = var_number(scope, variable);
    Forms::one(alloc, Form::Swap { x, field, v })
}
