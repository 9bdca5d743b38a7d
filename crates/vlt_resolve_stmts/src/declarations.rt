//! Declarations of variables, and assignments.

ghost use Rattle.std.specs.Prelude.{◌≡◌, ◌++◌, option_map, length, IfOk, OnOk};
ghost use Rattle.vlt_syntax.specs.View as tree;
ghost use Rattle.vlt_core.specs.View.{ty_of};
ghost use Rattle.vlt_kinds_types.specs.Names.Refusals.{least_from};
ghost use Rattle.vlt_kinds_types.specs.Seen.{kinds_seen};
ghost use Rattle.vlt_resolve_exprs.specs.Exprs.{var_number};
ghost use Rattle.vlt_resolve_exprs.specs.Refused.{unknown_name};
ghost use Rattle.vlt_resolve_exprs.specs.Scopes.{var_named, var_ty, with_var};
ghost use Rattle.vlt_resolve_exprs.specs.Seen.{scope_seen, forms_of, target_seen};
ghost use Rattle.vlt_resolve_rights.specs.News.{hides, hidden_refused, with_hidden};
ghost use Rattle.vlt_elaboration.specs.Rights.{right_refused, right_forms};
ghost use Rattle.vlt_elaboration.specs.Declarations as d;

use crate::rights::{right, right_for};
use std::alloc::{AllocError, Global};
use vlt_base::{Items, TypeId, VarId};
use vlt_core::rules::UNKNOWN_NAME;
use vlt_kinds_types::{Kinds, LeastRefusal};
use vlt_resolve_exprs::{
    Forms, Scope, Target, check_new_key, check_new_var, copied, copy_ty, known_or_first,
};
use vlt_resolve_rights::{add_hidden, check_hidden, check_uses};
use vlt_syntax::{Name, Right, Ty};

fn binds_key(scope: &Scope<'_>, ty: &Ty) -> bool
    ensures { result ≡ d.binds_key (scope_seen scope.now) (tree.ty_of ty.now) }
{
    match ty {
        Ty::Tracked { key, .. } => scope.key_named(key.text.as_slice()).is_none(),
        _ => false,
    }
}

#[tactic(auto, unfolding(vlt_elaboration::specs::Declarations::bound_key_refused))]
fn check_bound_key(kinds: &Kinds<'_>, scope: &Scope<'_>, ty: &Ty, found: &mut LeastRefusal)
    ensures { found.new.least ≡ least_from found.old.least
        (d.bound_key_refused (kinds_seen kinds.now) (scope_seen scope.now) (tree.ty_of ty.now)) }
{
    match ty {
        Ty::Tracked { key, .. } => {
            if scope.key_named(key.text.as_slice()).is_none() {
                check_new_key(kinds, scope, key, found);
            }
        }
        _ => {}
    }
}

fn type_id(number: Option<u32>) -> Option<TypeId>
    ensures { option_map (λ t. t.0) result ≡ number }
{
    match number {
        Some(t) => Some(TypeId(t)),
        None => None,
    }
}

#[tactic(auto, unfolding(vlt_elaboration::specs::Declarations::with_bound_key))]
fn bind_key<'a>(
    alloc: Global,
    kinds: &Kinds<'_>,
    scope: &mut Scope<'a>,
    ty: &'a Ty,
) -> Result<(), AllocError>
    ensures { OnOk result (scope_seen scope.new
        ≡ d.with_bound_key (kinds_seen kinds.now) (scope_seen scope.old) (tree.ty_of ty.now)) }
{
    match ty {
        Ty::Tracked { key, named, .. } => {
            if scope.key_named(key.text.as_slice()).is_none() {
                let t = type_id(kinds.file.type_named(&named.name));
                scope.add_key(alloc, key.text.as_slice(), t)?;
            }
            Ok(())
        }
        _ => Ok(()),
    }
}

#[tactic(auto, using(vlt_kinds_types::proofs::OfNames::Least::least_of_both), unfolding(vlt_elaboration::specs::Declarations::type_refused))]
fn check_type(
    alloc: Global,
    kinds: &Kinds<'_>,
    scope: &Scope<'_>,
    ty: &Ty,
    found: &mut LeastRefusal,
) -> Result<(), AllocError>
    ensures { OnOk result (found.new.least ≡ least_from found.old.least
        (d.type_refused (kinds_seen kinds.now) (scope_seen scope.now) (tree.ty_of ty.now))) }
{
    kinds.file.check_type(alloc, ty, found)?;
    let mut uses = Items::new(alloc);
    kinds.file.add_uses(ty, &mut uses)?;
    check_uses(scope, uses.as_slice(), found);
    Ok(())
}

#[tactic(auto, unfolding(vlt_elaboration::specs::Declarations::declared_ty))]
fn declared_ty(
    alloc: Global,
    kinds: &Kinds<'_>,
    scope: &Scope<'_>,
    ty: &Ty,
) -> Result<vlt_core::Ty, AllocError>
    ensures { IfOk result (λ t. ty_of t
        ≡ d.declared_ty (kinds_seen kinds.now) (scope_seen scope.now) (tree.ty_of ty.now)) }
{
    kinds.file.core_type(alloc, scope, ty)
}

/// The number of the next variable.
pub fn next_var(scope: &Scope<'_>) -> Result<VarId, AllocError>
    ensures { IfOk result (λ v. v.0 ≡ length scope.now.vars) }
{
    match u32::try_from(scope.vars.len()) {
        Ok(number) => Ok(VarId(number)),
        Err(_) => Err(AllocError),
    }
}

/// Binds a variable of this type.
fn bind<'a>(
    alloc: Global,
    scope: &mut Scope<'a>,
    name: &'a Name,
    ty: &vlt_core::Ty,
) -> Result<(), AllocError>
    ensures { OnOk result (scope_seen scope.new
        ≡ with_var (scope_seen scope.old) (tree.name_of name.now).text (ty_of ty.now)) }
{
    let ty = copy_ty(alloc, ty)?;
    scope.add_var(alloc, name.text.as_slice(), ty)?;
    Ok(())
}

/// Following the hidden variable of this number: the variable, and the right side, in which it isn't in scope.
#[tactic(auto, using(vlt_kinds_types::proofs::OfNames::Least::least_of_both), unfolding(vlt_elaboration::specs::Declarations::hidden_right_refused, vlt_elaboration::specs::Declarations::declared_became))]
fn declare_after<'a>(
    alloc: Global,
    kinds: &Kinds<'_>,
    scope: &mut Scope<'a>,
    target: &Target,
    hidden: VarId,
    name: &'a Name,
    value: &Right,
    found: &mut LeastRefusal,
) -> Result<Forms, AllocError>
    ensures refused { OnOk result (found.new.least
        ≡ least_from found.old.least (d.hidden_right_refused (kinds_seen kinds.now)
        (scope_seen scope.old) (target_seen target.now) (tree.name_of name.now)
        (tree.right_of value.now))) }
    ensures became { IfOk result (λ fs. d.declared_became (kinds_seen kinds.now) hidden.0
        (scope_seen scope.old) (target_seen target.now) (tree.name_of name.now)
        (tree.right_of value.now) ≡ (forms_of fs, scope_seen scope.new)) }
{
    check_new_var(kinds, scope, name, found);
    let x = next_var(scope)?;
    let forms = right_for(alloc, kinds, scope, target, x, hidden, value, found)?;
    bind(alloc, scope, name, &target.ty)?;
    Ok(forms)
}

/// Following the type: the hidden ones of the right side, and then the variable.
#[tactic(auto, using(vlt_kinds_types::proofs::OfNames::Least::least_of_both), unfolding(vlt_elaboration::specs::Declarations::declared_refused, vlt_elaboration::specs::Declarations::hidden_became))]
fn declare_target<'a>(
    alloc: Global,
    kinds: &Kinds<'_>,
    scope: &mut Scope<'a>,
    target: &Target,
    name: &'a Name,
    value: &Right,
    at: u32,
    found: &mut LeastRefusal,
) -> Result<Forms, AllocError>
    ensures refused { OnOk result (found.new.least
        ≡ least_from found.old.least (d.declared_refused (kinds_seen kinds.now)
        (scope_seen scope.old) (target_seen target.now) (tree.name_of name.now)
        (tree.right_of value.now) at)) }
    ensures became { IfOk result (λ fs. d.hidden_became (kinds_seen kinds.now)
        (scope_seen scope.old) (target_seen target.now) (tree.name_of name.now)
        (tree.right_of value.now) ≡ (forms_of fs, scope_seen scope.new)) }
{
    check_hidden(scope, value, Some(&target.ty), at, found);
    let hidden = next_var(scope)?;
    add_hidden(alloc, kinds, scope, value, Some(&target.ty))?;
    declare_after(alloc, kinds, scope, target, hidden, name, value, found)
}

/// In the scope with the key that the type binds.
#[tactic(auto, using(vlt_kinds_types::proofs::OfNames::Least::least_of_both), unfolding(vlt_elaboration::specs::Declarations::keyed_refused, vlt_elaboration::specs::Declarations::keyed_became))]
fn declare_keyed<'a>(
    alloc: Global,
    kinds: &Kinds<'_>,
    scope: &mut Scope<'a>,
    binds: bool,
    ty: &Ty,
    name: &'a Name,
    value: &Right,
    at: u32,
    found: &mut LeastRefusal,
) -> Result<Forms, AllocError>
    ensures refused { OnOk result (found.new.least ≡ least_from found.old.least (d.keyed_refused
        (kinds_seen kinds.now) binds (scope_seen scope.old) (tree.ty_of ty.now)
        (tree.name_of name.now)
        (tree.right_of value.now) at)) }
    ensures became { IfOk result (λ fs. d.keyed_became (kinds_seen kinds.now) binds
        (scope_seen scope.old) (tree.ty_of ty.now) (tree.name_of name.now)
        (tree.right_of value.now) ≡ (forms_of fs, scope_seen scope.new)) }
{
    check_type(alloc, kinds, scope, ty, found)?;
    let ty = declared_ty(alloc, kinds, scope, ty)?;
    let target = Target { ty, binds };
    declare_target(alloc, kinds, scope, &target, name, value, at, found)
}

/// Tests a declaration, and makes it. What it makes counts only where nothing is refused.
#[tactic(auto, using(vlt_kinds_types::proofs::OfNames::Least::least_of_both), unfolding(vlt_elaboration::specs::Declarations::declare_refused, vlt_elaboration::specs::Declarations::declare_became))]
pub fn declare<'a>(
    alloc: Global,
    kinds: &Kinds<'_>,
    scope: &mut Scope<'a>,
    ty: &'a Ty,
    name: &'a Name,
    value: &Right,
    at: u32,
    found: &mut LeastRefusal,
) -> Result<Forms, AllocError>
    ensures refused { OnOk result (found.new.least ≡ least_from found.old.least (d.declare_refused
        (kinds_seen kinds.now) (scope_seen scope.old) (tree.ty_of ty.now) (tree.name_of name.now)
        (tree.right_of value.now) at)) }
    ensures became { IfOk result (λ fs. d.declare_became (kinds_seen kinds.now)
        (scope_seen scope.old) (tree.ty_of ty.now) (tree.name_of name.now)
        (tree.right_of value.now) ≡ (forms_of fs, scope_seen scope.new)) }
{
    check_bound_key(kinds, scope, ty, found);
    let binds = binds_key(scope, ty);
    bind_key(alloc, kinds, scope, ty)?;
    declare_keyed(alloc, kinds, scope, binds, ty, name, value, at, found)
}

// ---- assignments

fn assigned_target(alloc: Global, ty: &Option<vlt_core::Ty>) -> Result<Option<Target>, AllocError>
    ensures { IfOk result (λ t. option_map target_seen t
        ≡ d.assigned_target (option_map ty_of ty.now)) }
{
    match ty {
        None => Ok(None),
        Some(ty) => Ok(Some(Target {
            ty: copy_ty(alloc, ty)?,
            binds: false,
        })),
    }
}

fn borrowed(ty: &Option<vlt_core::Ty>) -> Option<&vlt_core::Ty>
    ensures { option_map (λ t. ty_of t.now) result ≡ option_map ty_of ty.now }
{
    match ty {
        None => None,
        Some(ty) => Some(ty),
    }
}

/// The right side of an assignment to the variable `x` of this type, after its hidden variable.
fn assign_right(
    alloc: Global,
    kinds: &Kinds<'_>,
    scope: &Scope<'_>,
    ty: &Option<vlt_core::Ty>,
    x: VarId,
    hidden: VarId,
    value: &Right,
    found: &mut LeastRefusal,
) -> Result<Forms, AllocError>
    ensures refused { OnOk result (found.new.least ≡ least_from found.old.least (right_refused
        (kinds_seen kinds.now) (scope_seen scope.now)
        (d.assigned_target (option_map ty_of ty.now)) (tree.right_of value.now))) }
    ensures forms { IfOk result (λ fs. forms_of fs
        ≡ right_forms (kinds_seen kinds.now) (scope_seen scope.now)
        (d.assigned_target (option_map ty_of ty.now)) x.0 hidden.0 (tree.right_of value.now)) }
{
    let target = assigned_target(alloc, ty)?;
    right(alloc, kinds, scope, &target, x, hidden, value, found)
}

/// An assignment to the variable `x` of this type.
#[tactic(auto, using(vlt_kinds_types::proofs::OfNames::Least::least_of_both))]
fn assign_to(
    alloc: Global,
    kinds: &Kinds<'_>,
    scope: &mut Scope<'_>,
    ty: &Option<vlt_core::Ty>,
    x: VarId,
    value: &Right,
    at: u32,
    found: &mut LeastRefusal,
) -> Result<Forms, AllocError>
    ensures refused { OnOk result (found.new.least ≡ least_from found.old.least
        (hidden_refused (scope_seen scope.old)
        (hides (tree.right_of value.now) (option_map ty_of ty.now)) at
        ++ right_refused (kinds_seen kinds.now)
        (with_hidden (kinds_seen kinds.now) (scope_seen scope.old) (tree.right_of value.now)
        (option_map ty_of ty.now))
        (d.assigned_target (option_map ty_of ty.now)) (tree.right_of value.now))) }
    ensures scope { OnOk result (scope_seen scope.new
        ≡ with_hidden (kinds_seen kinds.now) (scope_seen scope.old) (tree.right_of value.now)
        (option_map ty_of ty.now)) }
    ensures forms { IfOk result (λ fs. forms_of fs
        ≡ right_forms (kinds_seen kinds.now)
        (with_hidden (kinds_seen kinds.now) (scope_seen scope.old) (tree.right_of value.now)
        (option_map ty_of ty.now))
        (d.assigned_target (option_map ty_of ty.now)) x.0 (length scope.old.vars)
        (tree.right_of value.now)) }
{
    let hidden = next_var(scope)?;
    check_hidden(scope, value, borrowed(ty), at, found);
    add_hidden(alloc, kinds, scope, value, borrowed(ty))?;
    assign_right(alloc, kinds, scope, ty, x, hidden, value, found)
}

/// Refuses a name that no variable in scope has, and gives the number and the type of the one that has it.
#[tactic(auto, unfolding(vlt_resolve_exprs::specs::Refused::unknown_name, vlt_resolve_exprs::specs::Scopes::var_ty, vlt_resolve_exprs::specs::Exprs::var_number))]
fn check_assigned(
    alloc: Global,
    scope: &Scope<'_>,
    name: &Name,
    found: &mut LeastRefusal,
) -> Result<(VarId, Option<vlt_core::Ty>), AllocError>
    ensures refused { OnOk result (found.new.least ≡ least_from found.old.least
        (unknown_name (var_named (scope_seen scope.now) (tree.name_of name.now).text)
        (tree.name_of name.now))) }
    ensures number { IfOk result (λ p. p.0.0
        ≡ var_number (scope_seen scope.now) (tree.name_of name.now)) }
    ensures ty { IfOk result (λ p. option_map ty_of p.1
        ≡ var_ty (scope_seen scope.now) (tree.name_of name.now).text) }
{
    let v = scope.var_named(name.text.as_slice());
    if v.is_none() {
        found.add(UNKNOWN_NAME, name.at.from);
    }
    let ty = copied(alloc, scope.ty_at(v))?;
    Ok((known_or_first(v), ty))
}

/// Tests an assignment, and makes it. What it makes counts only where nothing is refused.
#[tactic(auto, using(vlt_kinds_types::proofs::OfNames::Least::least_of_both), unfolding(vlt_elaboration::specs::Declarations::assign_refused, vlt_elaboration::specs::Declarations::assign_became))]
pub fn assign(
    alloc: Global,
    kinds: &Kinds<'_>,
    scope: &mut Scope<'_>,
    name: &Name,
    value: &Right,
    at: u32,
    found: &mut LeastRefusal,
) -> Result<Forms, AllocError>
    ensures refused { OnOk result (found.new.least ≡ least_from found.old.least (d.assign_refused
        (kinds_seen kinds.now) (scope_seen scope.old) (tree.name_of name.now)
        (tree.right_of value.now) at)) }
    ensures became { IfOk result (λ fs. d.assign_became (kinds_seen kinds.now)
        (scope_seen scope.old) (tree.name_of name.now) (tree.right_of value.now)
        ≡ (forms_of fs, scope_seen scope.new)) }
{
    let (x, ty) = check_assigned(alloc, scope, name, found)?;
    assign_to(alloc, kinds, scope, &ty, x, value, at, found)
}
