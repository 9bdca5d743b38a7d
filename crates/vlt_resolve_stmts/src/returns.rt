//! `return`.

ghost use Rattle.std.specs.Prelude.{◌≡◌, ◌==◌, ◌&&◌, [], map, option_map, Some, IfOk, OnOk};
ghost use Rattle.std.specs.List.{list_any};
ghost use Rattle.vlt_syntax.specs.View as tree;
ghost use Rattle.vlt_core.specs.Lookups.{is_given_back};
ghost use Rattle.vlt_core.specs.View.{ty_of, entry_of, form_of, operand_of};
ghost use Rattle.vlt_kinds_types.specs.Names.Refusals.{least_from};
ghost use Rattle.vlt_kinds_types.specs.Seen.{kinds_seen};
ghost use Rattle.vlt_resolve_exprs.specs.Seen.{scope_seen, forms_of};
ghost use Rattle.vlt_resolve_exprs.specs.Scopes.{more_var};
ghost use Rattle.vlt_resolve_calls.specs.Builds as b;
ghost use Rattle.vlt_elaboration.specs.Statements as s;
ghost use Rattle.vlt_resolve_stmts.specs.Seen.{around_seen};

use crate::around::Around;
use std::alloc::{AllocError, Global};
use vlt_base::{Boxed, KeyId, VarId};
use vlt_core::rules::{RETURNED_KEY, WRONG_JUMP, WRONG_RETURN, WRONG_TYPE};
use vlt_core::{Entry, Expr as CoreExpr, Form, Mode, Operand, Ty};
use vlt_kinds_types::{Kinds, LeastRefusal};
use vlt_resolve_calls::{build, has_fresh};
use vlt_resolve_exprs::{
    Forms, Scope, check_any, check_operand, check_too_many_vars, copy_ty, core_operand, is_owning,
    place, same_object,
};
use vlt_syntax::{Build, Expr, Returned};

// ---- a value

fn same_but_key(wanted: &Ty, got: &Ty) -> bool
    ensures { result ≡ s.same_but_key (ty_of wanted.now) (ty_of got.now) }
{
    match (wanted, got) {
        (Ty::Key(_, t, args), Ty::Key(_, u, others)) => same_object(
            *t,
            args.as_slice(),
            *u,
            others.as_slice(),
        ),
        _ => false,
    }
}

fn is_given_back(entry: &Entry) -> bool
    ensures { result ≡ is_given_back (entry_of entry.now) }
{
    matches!(entry.mode, Mode::Kept | Mode::Given | Mode::Bound(_))
}

fn gives_key_back(key: KeyId, clause: &[Entry]) -> bool
    ensures { result ≡ list_any (λ e. (e.key == key.0) && is_given_back e)
        (map entry_of clause.now) }
{
    for entry in clause {
        if entry.key.0 == key.0 && is_given_back(entry) {
            return true;
        }
    }
    false
}

fn gives_back(ty: &Ty, clause: &[Entry]) -> bool
    ensures { result ≡ s.gives_back (ty_of ty.now) (map entry_of clause.now) }
{
    match ty {
        Ty::Key(key, ..) => gives_key_back(*key, clause),
        _ => false,
    }
}

#[tactic(auto, unfolding(vlt_elaboration::specs::Statements::fresh_misfit))]
fn check_fresh_given(
    clause: &[Entry],
    wanted: &Ty,
    given: &Option<Ty>,
    value: u32,
    at: u32,
    found: &mut LeastRefusal,
)
    ensures { found.new.least ≡ least_from found.old.least
        (s.fresh_misfit (map entry_of clause.now) (ty_of wanted.now)
        (option_map ty_of given.now) value at) }
{
    match given {
        None => {}
        Some(ty) => {
            if same_but_key(wanted, ty) {
                found.add_if(gives_back(ty, clause), RETURNED_KEY, at);
            } else {
                found.add(WRONG_TYPE, value);
            }
        }
    }
}

#[tactic(auto, using(vlt_kinds_types::proofs::OfNames::Least::least_of_both), unfolding(vlt_elaboration::specs::Statements::fresh_refused))]
fn check_fresh(
    alloc: Global,
    kinds: &Kinds<'_>,
    scope: &Scope<'_>,
    clause: &[Entry],
    wanted: &Ty,
    expr: &Expr,
    at: u32,
    found: &mut LeastRefusal,
) -> Result<(), AllocError>
    ensures { OnOk result (found.new.least ≡ least_from found.old.least
        (s.fresh_refused (kinds_seen kinds.now) (scope_seen scope.now) (map entry_of clause.now)
        (ty_of wanted.now) (tree.expr_of expr.now) at)) }
{
    let given = check_any(alloc, kinds, scope, expr, found)?;
    check_fresh_given(clause, wanted, &given, place(expr), at, found);
    Ok(())
}

#[tactic(auto, unfolding(vlt_elaboration::specs::Statements::value_refused))]
fn check_value(
    alloc: Global,
    kinds: &Kinds<'_>,
    scope: &Scope<'_>,
    clause: &[Entry],
    wanted: &Ty,
    expr: &Expr,
    at: u32,
    found: &mut LeastRefusal,
) -> Result<(), AllocError>
    ensures { OnOk result (found.new.least ≡ least_from found.old.least
        (s.value_refused (kinds_seen kinds.now) (scope_seen scope.now) (map entry_of clause.now)
        (ty_of wanted.now) (tree.expr_of expr.now) at)) }
{
    if has_fresh(clause) {
        check_fresh(alloc, kinds, scope, clause, wanted, expr, at, found)
    } else {
        check_operand(alloc, kinds, scope, wanted, expr, found)
    }
}

fn check_value_for(
    alloc: Global,
    kinds: &Kinds<'_>,
    scope: &Scope<'_>,
    clause: &[Entry],
    wanted: &Option<Ty>,
    expr: &Expr,
    at: u32,
    found: &mut LeastRefusal,
) -> Result<(), AllocError>
    ensures { OnOk result (found.new.least ≡ least_from found.old.least
        (s.value_refused_for (kinds_seen kinds.now) (scope_seen scope.now)
        (map entry_of clause.now) (option_map ty_of wanted.now) (tree.expr_of expr.now) at)) }
{
    match wanted {
        None => Ok(()),
        Some(ty) => check_value(alloc, kinds, scope, clause, ty, expr, at, found),
    }
}

fn returned_value(
    alloc: Global,
    kinds: &Kinds<'_>,
    scope: &Scope<'_>,
    wanted: &Option<Ty>,
    expr: &Expr,
) -> Result<Forms, AllocError>
    ensures { IfOk result (λ fs. forms_of fs
        ≡ s.returned_value (kinds_seen kinds.now) (scope_seen scope.now)
        (option_map ty_of wanted.now) (tree.expr_of expr.now)) }
{
    match wanted {
        None => Ok(Forms::Nothing),
        Some(ty) => {
            let value = core_operand(alloc, kinds, scope, ty, expr)?;
            Forms::one(alloc, Form::Return { value: Some(value) })
        }
    }
}

// ---- a tick

fn hidden_operand(ty: &Ty, v: VarId) -> Operand
    ensures { operand_of result ≡ s.hidden_operand (ty_of ty.now) v.0 }
{
    if is_owning(ty) {
        Operand::Move(v)
    } else {
        Operand::Pure(CoreExpr::Var(v))
    }
}

fn build_boxed(
    alloc: Global,
    kinds: &Kinds<'_>,
    scope: &Scope<'_>,
    wanted: &Ty,
    hidden: VarId,
    built: &Build,
    found: &mut LeastRefusal,
) -> Result<Boxed<Form>, AllocError>
    ensures refused { OnOk result (found.new.least ≡ least_from found.old.least
        (b.build_refused (kinds_seen kinds.now) (scope_seen scope.now) (ty_of wanted.now)
        (tree.build_of built.now))) }
    ensures form { IfOk result (λ f. form_of f
        ≡ b.core_build (kinds_seen kinds.now) (scope_seen scope.now) (ty_of wanted.now) hidden.0
        (tree.build_of built.now)) }
{
    let form = build(alloc, kinds, scope, wanted, hidden, built, found)?;
    Boxed::new(alloc, form)
}

fn return_known_build(
    alloc: Global,
    kinds: &Kinds<'_>,
    scope: &mut Scope<'_>,
    wanted: &Ty,
    built: &Build,
    found: &mut LeastRefusal,
) -> Result<Forms, AllocError>
    ensures refused { OnOk result (found.new.least
        ≡ least_from found.old.least (b.build_refused (kinds_seen kinds.now)
        (more_var (scope_seen scope.old) [] (ty_of wanted.now)) (ty_of wanted.now)
        (tree.build_of built.now))) }
    ensures became { IfOk result (λ fs. s.returned_build (kinds_seen kinds.now)
        (scope_seen scope.old) (Some (ty_of wanted.now)) (tree.build_of built.now)
        ≡ (forms_of fs, scope_seen scope.new)) }
{
    let hidden = scope.add_hidden_var(alloc, &[], copy_ty(alloc, wanted)?)?;
    let made = build_boxed(alloc, kinds, scope, wanted, hidden, built, found)?;
    let value = Some(hidden_operand(wanted, hidden));
    Forms::two(alloc, made, Form::Return { value })
}

fn return_build_for(
    alloc: Global,
    kinds: &Kinds<'_>,
    scope: &mut Scope<'_>,
    wanted: &Option<Ty>,
    built: &Build,
    found: &mut LeastRefusal,
) -> Result<Forms, AllocError>
    ensures refused { OnOk result (found.new.least
        ≡ least_from found.old.least (s.build_refused_for (kinds_seen kinds.now)
        (scope_seen scope.old) (option_map ty_of wanted.now) (tree.build_of built.now))) }
    ensures became { IfOk result (λ fs. s.returned_build (kinds_seen kinds.now)
        (scope_seen scope.old) (option_map ty_of wanted.now) (tree.build_of built.now)
        ≡ (forms_of fs, scope_seen scope.new)) }
{
    match wanted {
        None => Ok(Forms::Nothing),
        Some(ty) => return_known_build(alloc, kinds, scope, ty, built, found),
    }
}

/// Tests a tick for a hidden variable, and returns that.
#[tactic(auto, using(vlt_kinds_types::proofs::OfNames::Least::least_of_both), unfolding(vlt_elaboration::specs::Statements::built_refused))]
fn return_build(
    alloc: Global,
    kinds: &Kinds<'_>,
    scope: &mut Scope<'_>,
    wanted: &Option<Ty>,
    built: &Build,
    at: u32,
    found: &mut LeastRefusal,
) -> Result<Forms, AllocError>
    ensures refused { OnOk result (found.new.least
        ≡ least_from found.old.least (s.built_refused (kinds_seen kinds.now)
        (scope_seen scope.old) (option_map ty_of wanted.now) (tree.build_of built.now) at)) }
    ensures became { IfOk result (λ fs. s.returned_build (kinds_seen kinds.now)
        (scope_seen scope.old) (option_map ty_of wanted.now) (tree.build_of built.now)
        ≡ (forms_of fs, scope_seen scope.new)) }
{
    check_too_many_vars(scope, at, found);
    return_build_for(alloc, kinds, scope, wanted, built, found)
}

// ---- all of them

#[tactic(auto, unfolding(vlt_elaboration::specs::Statements::returned_refused, vlt_elaboration::specs::Statements::return_became))]
fn returned(
    alloc: Global,
    kinds: &Kinds<'_>,
    around: Around<'_>,
    scope: &mut Scope<'_>,
    gives: &Returned,
    at: u32,
    found: &mut LeastRefusal,
) -> Result<Forms, AllocError>
    ensures refused { OnOk result (found.new.least
        ≡ least_from found.old.least (s.returned_refused (kinds_seen kinds.now)
        (around_seen around.entry) (scope_seen scope.old) (tree.returned_of gives.now) at)) }
    ensures became { IfOk result (λ fs. s.return_became (kinds_seen kinds.now)
        (around_seen around.entry) (scope_seen scope.old) (tree.returned_of gives.now)
        ≡ (forms_of fs, scope_seen scope.new)) }
{
    match gives {
        Returned::Nothing => Forms::one(alloc, Form::Return { value: None }),
        Returned::Value(expr) => {
            let clause = around.head.clause.as_slice();
            check_value_for(
                alloc,
                kinds,
                scope,
                clause,
                &around.head.result,
                expr,
                at,
                found,
            )?;
            returned_value(alloc, kinds, scope, &around.head.result, expr)
        }
        Returned::Build(built) => return_build(
            alloc,
            kinds,
            scope,
            &around.head.result,
            built,
            at,
            found,
        ),
    }
}

fn gives_value(gives: &Returned) -> bool
    ensures { result ≡ s.gives_value (tree.returned_of gives.now) }
{
    match gives {
        Returned::Nothing => false,
        _ => true,
    }
}

/// Tests a `return` at this place, and makes it. What it makes counts only where nothing is refused.
#[tactic(auto, using(vlt_kinds_types::proofs::OfNames::Least::least_of_both), unfolding(vlt_elaboration::specs::Statements::return_refused))]
pub fn return_stmt(
    alloc: Global,
    kinds: &Kinds<'_>,
    around: Around<'_>,
    scope: &mut Scope<'_>,
    gives: &Returned,
    at: u32,
    found: &mut LeastRefusal,
) -> Result<Forms, AllocError>
    ensures refused { OnOk result (found.new.least
        ≡ least_from found.old.least (s.return_refused (kinds_seen kinds.now)
        (around_seen around.entry) (scope_seen scope.old) (tree.returned_of gives.now) at)) }
    ensures became { IfOk result (λ fs. s.return_became (kinds_seen kinds.now)
        (around_seen around.entry) (scope_seen scope.old) (tree.returned_of gives.now)
        ≡ (forms_of fs, scope_seen scope.new)) }
{
    found.add_if(around.in_focus, WRONG_JUMP, at);
    found.add_if(
        gives_value(gives) != around.head.result.is_some(),
        WRONG_RETURN,
        at,
    );
    returned(alloc, kinds, around, scope, gives, at, found)
}
