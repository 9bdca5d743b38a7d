//! What is refused at a switch, at its arms, and at a focus, and the scopes in their blocks.

ghost use Rattle.std.specs.Prelude.{◌≡◌, map, option_map, IfOk, OnOk};
ghost use Rattle.vlt_syntax.specs.View as tree;
ghost use Rattle.vlt_core.specs.View.{ty_of, case_of, vars_of};
ghost use Rattle.vlt_core.specs.Lookups.{variant_in};
ghost use Rattle.vlt_kinds_types.specs.Names.Refusals.{least_from};
ghost use Rattle.vlt_kinds_types.specs.Seen.{kinds_seen};
ghost use Rattle.vlt_resolve_exprs.specs.Seen.{scope_seen};
ghost use Rattle.vlt_resolve_calls.specs.Seen.{case_seen};
ghost use Rattle.vlt_elaboration.specs.Switches as s;
ghost use Rattle.vlt_resolve_parts.specs.Seen.{texts_seen};

use std::alloc::{AllocError, Global};
use vlt_base::{Items, KeyId, TypeId, VarId};
use vlt_core::rules::{UNKNOWN_NAME, WRONG_SWITCH, WRONG_TYPE};
use vlt_core::{CaseDecl, Ty};
use vlt_kinds_types::{Kinds, LeastRefusal};
use vlt_resolve_calls::{Case, case_of_tick, cases_of, without_tick};
use vlt_resolve_exprs::{Scope, add_several, check_new_key, check_new_var};
use vlt_syntax::{Arm, Name};

// ---- the cases of a switch

/// The names after the `'` of each arm's tick.
pub fn arm_names<'a>(alloc: Global, arms: &'a [Arm]) -> Result<Items<&'a [u8]>, AllocError>
    ensures { IfOk result (λ ns. texts_seen ns ≡ s.arm_names (tree.arms_of arms.now)) }
{
    let mut names = Items::new(alloc);
    for arm in arms {
        names.push(without_tick(arm.case.text.as_slice()))?;
    }
    Ok(names)
}

fn is_among(names: &[&[u8]], name: &[u8]) -> bool
    ensures { result ≡ s.is_among (texts_seen names.now) name.now }
{
    for other in names {
        if name == *other {
            return true;
        }
    }
    false
}

fn are_distinct(names: &[&[u8]]) -> bool
    ensures { result ≡ s.are_distinct (texts_seen names.now) }
{
    for (i, name) in names.iter().enumerate() {
        if is_among(&names[i + 1..], name) {
            return false;
        }
    }
    true
}

fn case_names<'k>(alloc: Global, cases: &'k [CaseDecl]) -> Result<Items<&'k [u8]>, AllocError>
    ensures { IfOk result (λ ns. texts_seen ns ≡ s.case_names (map case_of cases.now)) }
{
    let mut names = Items::new(alloc);
    for case in cases {
        names.push(case.name.as_slice())?;
    }
    Ok(names)
}

fn all_among(names: &[&[u8]], others: &[&[u8]]) -> bool
    ensures { result ≡ s.all_among (texts_seen names.now) (texts_seen others.now) }
{
    for other in others {
        if !is_among(names, other) {
            return false;
        }
    }
    true
}

fn covers(arms: &[&[u8]], cases: &[&[u8]]) -> bool
    ensures { result ≡ s.covers (texts_seen arms.now) (texts_seen cases.now) }
{
    all_among(cases, arms) && all_among(arms, cases)
}

fn variant_covered(
    alloc: Global,
    kinds: &Kinds<'_>,
    ty: &Ty,
    names: &[&[u8]],
) -> Result<bool, AllocError>
    ensures { IfOk result (λ b. b
        ≡ s.variant_covered (kinds_seen kinds.now) (variant_in (Some (ty_of ty.now)))
        (texts_seen names.now)) }
{
    match ty {
        Ty::Var(t, _) => {
            let cases = case_names(alloc, cases_of(kinds, *t))?;
            Ok(covers(names, cases.as_slice()))
        }
        Ty::OwnVar(t, _) => {
            let cases = case_names(alloc, cases_of(kinds, *t))?;
            Ok(covers(names, cases.as_slice()))
        }
        _ => Ok(false),
    }
}

#[tactic(auto, unfolding(vlt_elaboration::specs::Switches::cases_refused))]
fn check_cases(
    alloc: Global,
    kinds: &Kinds<'_>,
    ty: &Option<Ty>,
    name: &Name,
    names: &[&[u8]],
    at: u32,
    found: &mut LeastRefusal,
) -> Result<(), AllocError>
    ensures { OnOk result (found.new.least ≡ least_from found.old.least
        (s.cases_refused (kinds_seen kinds.now) (option_map ty_of ty.now)
        (tree.name_of name.now) (texts_seen names.now) at)) }
{
    match ty {
        None => found.add(UNKNOWN_NAME, name.at.from),
        Some(ty) => {
            let covered = variant_covered(alloc, kinds, ty, names)?;
            found.add_if(!covered, WRONG_SWITCH, at);
        }
    }
    Ok(())
}

/// What is refused at a switch on a variable of this type, whose arms have these names.
#[tactic(auto, using(vlt_kinds_types::proofs::OfNames::Least::least_of_both), unfolding(vlt_elaboration::specs::Switches::switch_refused))]
pub fn check_switch(
    alloc: Global,
    kinds: &Kinds<'_>,
    ty: &Option<Ty>,
    name: &Name,
    names: &[&[u8]],
    at: u32,
    found: &mut LeastRefusal,
) -> Result<(), AllocError>
    ensures { OnOk result (found.new.least ≡ least_from found.old.least
        (s.switch_refused (kinds_seen kinds.now) (option_map ty_of ty.now)
        (tree.name_of name.now) (texts_seen names.now) at)) }
{
    found.add_if(!are_distinct(names), WRONG_SWITCH, at);
    check_cases(alloc, kinds, ty, name, names, at, found)
}

// ---- an arm

/// The case of an arm, where the variable's type is known and has it.
pub fn arm_case(
    alloc: Global,
    kinds: &Kinds<'_>,
    ty: &Option<Ty>,
    tick: &Name,
) -> Result<Option<Case>, AllocError>
    ensures { IfOk result (λ c. option_map case_seen c
        ≡ s.arm_case (kinds_seen kinds.now) (option_map ty_of ty.now) (tree.name_of tick.now)) }
{
    match ty {
        None => Ok(None),
        Some(ty) => case_of_tick(alloc, kinds, ty, tick),
    }
}

/// Binds the variables of an arm.
#[tactic(auto, unfolding(vlt_elaboration::specs::Switches::arm_refused, vlt_elaboration::specs::Switches::arm_scope, vlt_elaboration::specs::Switches::arm_numbers))]
pub fn bind_arm<'a>(
    alloc: Global,
    kinds: &Kinds<'_>,
    scope: &mut Scope<'a>,
    case: &Option<Case>,
    tick: &Name,
    names: &'a [Name],
    found: &mut LeastRefusal,
) -> Result<Items<VarId>, AllocError>
    ensures refused { OnOk result (found.new.least
        ≡ least_from found.old.least (s.arm_refused (kinds_seen kinds.now)
        (scope_seen scope.old) (option_map case_seen case.now) (tree.name_of tick.now)
        (tree.names_of names.now))) }
    ensures scope { OnOk result (scope_seen scope.new
        ≡ s.arm_scope (scope_seen scope.old) (option_map case_seen case.now)
        (tree.names_of names.now)) }
    ensures numbers { IfOk result (λ vs. vars_of vs
        ≡ s.arm_numbers (scope_seen scope.old) (option_map case_seen case.now)
        (tree.names_of names.now)) }
{
    match case {
        None => Ok(Items::new(alloc)),
        Some(case) => {
            let types = case.payload.as_slice();
            add_several(alloc, kinds, scope, names, types, tick.at.from, found)
        }
    }
}

pub fn case_number(case: &Option<Case>) -> u8
    ensures { result ≡ s.case_number (option_map case_seen case.now) }
{
    match case {
        None => 0,
        Some(case) => case.number,
    }
}

// ---- a focus

fn focused_type(ty: &Option<Ty>) -> Option<TypeId>
    ensures { option_map (λ t. t.0) result ≡ s.focused_type (option_map ty_of ty.now) }
{
    match ty {
        Some(Ty::Guard(_, t, _)) => Some(*t),
        _ => None,
    }
}

#[tactic(auto, unfolding(vlt_elaboration::specs::Switches::focused_refused))]
fn check_focused(ty: &Option<Ty>, name: &Name, found: &mut LeastRefusal)
    ensures { found.new.least ≡ least_from found.old.least
        (s.focused_refused (option_map ty_of ty.now) (tree.name_of name.now)) }
{
    match ty {
        None => found.add(UNKNOWN_NAME, name.at.from),
        Some(Ty::Guard(..)) => {}
        Some(_) => found.add(WRONG_TYPE, name.at.from),
    }
}

fn focus_ty(alloc: Global, ty: &Option<Ty>, key: KeyId) -> Result<Ty, AllocError>
    ensures { IfOk result (λ t. ty_of t ≡ s.focus_ty (option_map ty_of ty.now) key.0) }
{
    match ty {
        Some(Ty::Guard(_, t, args)) => Ok(Ty::Key(
            key,
            *t,
            Items::from_slice(alloc, args.as_slice())?,
        )),
        _ => Ok(Ty::Key(key, TypeId(0), Items::new(alloc))),
    }
}

/// Binds the key and the variable of a focus on a variable of this type, in the scope of its block.
#[tactic(auto, using(vlt_kinds_types::proofs::OfNames::Least::least_of_both), unfolding(vlt_elaboration::specs::Switches::bound_refused))]
fn bind_focus_names<'a>(
    alloc: Global,
    kinds: &Kinds<'_>,
    scope: &mut Scope<'a>,
    ty: &Option<Ty>,
    key: &'a Name,
    alias: &'a Name,
    found: &mut LeastRefusal,
) -> Result<(), AllocError>
    ensures refused { OnOk result (found.new.least
        ≡ least_from found.old.least (s.bound_refused (kinds_seen kinds.now)
        (scope_seen scope.old) (option_map ty_of ty.now) (tree.name_of key.now)
        (tree.name_of alias.now))) }
    ensures scope { OnOk result (scope_seen scope.new ≡ s.bound_scope (scope_seen scope.old)
        (option_map ty_of ty.now) (tree.name_of key.now) (tree.name_of alias.now)) }
{
    check_new_key(kinds, scope, key, found);
    let number = scope.add_focus_key(alloc, key.text.as_slice(), focused_type(ty))?;
    check_new_var(kinds, scope, alias, found);
    let bound = focus_ty(alloc, ty, number)?;
    scope.add_var(alloc, alias.text.as_slice(), bound)?;
    Ok(())
}

/// Tests a focus on a variable of this type, and binds its key and its variable in the scope of its block.
#[tactic(auto, using(vlt_kinds_types::proofs::OfNames::Least::least_of_both), unfolding(vlt_elaboration::specs::Switches::focus_refused))]
pub fn bind_focus<'a>(
    alloc: Global,
    kinds: &Kinds<'_>,
    scope: &mut Scope<'a>,
    ty: &Option<Ty>,
    name: &Name,
    key: &'a Name,
    alias: &'a Name,
    found: &mut LeastRefusal,
) -> Result<(), AllocError>
    ensures refused { OnOk result (found.new.least
        ≡ least_from found.old.least (s.focus_refused (kinds_seen kinds.now)
        (scope_seen scope.old) (option_map ty_of ty.now) (tree.name_of name.now)
        (tree.name_of key.now) (tree.name_of alias.now))) }
    ensures scope { OnOk result (scope_seen scope.new ≡ s.bound_scope (scope_seen scope.old)
        (option_map ty_of ty.now) (tree.name_of key.now) (tree.name_of alias.now)) }
{
    check_focused(ty, name, found);
    bind_focus_names(alloc, kinds, scope, ty, key, alias, found)
}
