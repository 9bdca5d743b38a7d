//! A tick with its payloads, for a target of a variant's type.

ghost use Rattle.std.specs.Prelude.{◌≡◌, map, drop, option_map, position, IfOk, OnOk, Some};
ghost use Rattle.std.specs.Str.{bytes_eq};
ghost use Rattle.vlt_syntax.specs.View as tree;
ghost use Rattle.vlt_core.specs.View.{ty_of, form_of, case_of, keys_of, type_of};
ghost use Rattle.vlt_core.specs.Lookups.{cases_in};
ghost use Rattle.vlt_kinds_types.specs.Names.Refusals.{least_from};
ghost use Rattle.vlt_kinds_types.specs.Seen.{kinds_seen};
ghost use Rattle.vlt_resolve_exprs.specs.Seen.{scope_seen};
ghost use Rattle.vlt_resolve_exprs.specs.Types.{ty_under};
ghost use Rattle.vlt_resolve_calls.specs.Builds as b;
ghost use Rattle.vlt_resolve_calls.specs.Seen.{case_seen};

use std::alloc::{AllocError, Global};
use vlt_base::{Items, KeyId, TypeId, VarId};
use vlt_core::rules::{WRONG_COUNT, WRONG_TYPE};
use vlt_core::{CaseDecl, Form, Ty, TypeDecl};
use vlt_kinds_types::{Kinds, LeastRefusal};
use vlt_resolve_exprs::{Scope, check_operands, core_operands, ty_under};
use vlt_syntax::{Build, Name};

/// A case of a variant, and the types of its payloads.
#[derive(Drop)]
pub struct Case {
    pub number: u8,
    pub payload: Items<Ty>,
}

fn cases_in(decl: Option<&TypeDecl>) -> &[CaseDecl]
    ensures { map case_of result.now ≡ cases_in (option_map (λ d. type_of d.now) decl.entry) }
{
    match decl {
        Some(TypeDecl::Variant { cases, .. }) => cases.as_slice(),
        _ => &[],
    }
}

/// The cases of a type.
pub fn cases_of<'k>(kinds: &'k Kinds<'_>, t: TypeId) -> &'k [CaseDecl]
    ensures { map case_of result.now ≡ b.cases_of (kinds_seen kinds.now) t.0 }
{
    cases_in(kinds.types.get(t.0 as usize))
}

/// The name of a case after its `'`.
pub fn without_tick(tick: &[u8]) -> &[u8]
    ensures { result.now ≡ drop 1 tick.now }
{
    if tick.is_empty() { tick } else { &tick[1..] }
}

/// The position of the first case of this name.
fn find_case(cases: &[CaseDecl], name: &[u8]) -> Option<usize>
    ensures { result ≡ position (λ c. bytes_eq name.now c.name) (map case_of cases.now) }
{
    for (i, case) in cases.iter().enumerate() {
        if name == case.name.as_slice() {
            return Some(i);
        }
    }
    None
}

fn case_position(cases: &[CaseDecl], tick: &Name) -> Option<usize>
    ensures { result ≡ b.case_position (map case_of cases.now) (tree.name_of tick.now) }
{
    find_case(cases, without_tick(tick.text.as_slice()))
}

fn types_under(alloc: Global, args: &[KeyId], types: &[Ty]) -> Result<Items<Ty>, AllocError>
    ensures { IfOk result (λ ts. map ty_of ts
        ≡ map (ty_under (keys_of args.now)) (map ty_of types.now)) }
{
    let mut made = Items::new(alloc);
    for ty in types {
        made.push(ty_under(alloc, args, ty)?)?;
    }
    Ok(made)
}

fn payload_in(
    alloc: Global,
    args: &[KeyId],
    case: Option<&CaseDecl>,
) -> Result<Items<Ty>, AllocError>
    ensures { IfOk result (λ ts. map ty_of ts
        ≡ b.payload_in (keys_of args.now) (option_map (λ c. case_of c.now) case.entry)) }
{
    match case {
        None => Ok(Items::new(alloc)),
        Some(case) => types_under(alloc, args, case.payload.as_slice()),
    }
}

fn case_at(
    alloc: Global,
    cases: &[CaseDecl],
    args: &[KeyId],
    number: usize,
) -> Result<Case, AllocError>
    ensures { IfOk result (λ c. case_seen c ≡ b.case_at (map case_of cases.now)
        (keys_of args.now) number) }
{
    let payload = payload_in(alloc, args, cases.get(number))?;
    match u8::try_from(number) {
        Ok(number) => Ok(Case { number, payload }),
        Err(_) => Err(AllocError),
    }
}

#[tactic(auto, unfolding(crate::specs::Builds::case_in))]
fn case_in(
    alloc: Global,
    cases: &[CaseDecl],
    args: &[KeyId],
    tick: &Name,
) -> Result<Option<Case>, AllocError>
    ensures { IfOk result (λ c. option_map case_seen c
        ≡ b.case_in (map case_of cases.now) (keys_of args.now) (tree.name_of tick.now)) }
{
    match case_position(cases, tick) {
        None => Ok(None),
        Some(number) => Ok(Some(case_at(alloc, cases, args, number)?)),
    }
}

/// The case of this tick, where the type is a variant that has it.
#[tactic(auto, unfolding(crate::specs::Builds::case_of_tick))]
pub fn case_of_tick(
    alloc: Global,
    kinds: &Kinds<'_>,
    ty: &Ty,
    tick: &Name,
) -> Result<Option<Case>, AllocError>
    ensures { IfOk result (λ c. option_map case_seen c
        ≡ b.case_of_tick (kinds_seen kinds.now) (ty_of ty.now) (tree.name_of tick.now)) }
{
    match ty {
        Ty::Var(t, args) => case_in(alloc, cases_of(kinds, *t), args.as_slice(), tick),
        Ty::OwnVar(t, args) => case_in(alloc, cases_of(kinds, *t), args.as_slice(), tick),
        _ => Ok(None),
    }
}

// ---- what is refused

#[tactic(auto, unfolding(crate::specs::Builds::payload_refused))]
fn check_payload(
    alloc: Global,
    kinds: &Kinds<'_>,
    scope: &Scope<'_>,
    case: &Case,
    build: &Build,
    found: &mut LeastRefusal,
) -> Result<(), AllocError>
    ensures { OnOk result (found.new.least ≡ least_from found.old.least
        (b.payload_refused (kinds_seen kinds.now) (scope_seen scope.now) (case_seen case.now)
        (tree.build_of build.now))) }
{
    if case.payload.len() == build.payload.len() {
        check_operands(
            alloc,
            kinds,
            scope,
            case.payload.as_slice(),
            build.payload.as_slice(),
            found,
        )?;
    } else {
        found.add(WRONG_COUNT, build.case.at.from);
    }
    Ok(())
}

fn check_case(
    alloc: Global,
    kinds: &Kinds<'_>,
    scope: &Scope<'_>,
    case: &Option<Case>,
    build: &Build,
    found: &mut LeastRefusal,
) -> Result<(), AllocError>
    ensures { OnOk result (found.new.least ≡ least_from found.old.least
        (b.case_refused (kinds_seen kinds.now) (scope_seen scope.now)
        (option_map case_seen case.now) (tree.build_of build.now))) }
{
    match case {
        None => {
            found.add(WRONG_TYPE, build.case.at.from);
            Ok(())
        }
        Some(case) => check_payload(alloc, kinds, scope, case, build, found),
    }
}

fn case_form(
    alloc: Global,
    kinds: &Kinds<'_>,
    scope: &Scope<'_>,
    v: VarId,
    case: &Option<Case>,
    build: &Build,
) -> Result<Form, AllocError>
    ensures { IfOk result (λ f. form_of f ≡ b.case_form (kinds_seen kinds.now)
        (scope_seen scope.now) v.0 (option_map case_seen case.now) (tree.build_of build.now)) }
{
    match case {
        None => Ok(Form::Build {
            v,
            case: 0,
            args: Items::new(alloc),
        }),
        Some(case) => {
            let args = core_operands(
                alloc,
                kinds,
                scope,
                build.payload.as_slice(),
                case.payload.as_slice(),
            )?;
            Ok(Form::Build {
                v,
                case: case.number,
                args,
            })
        }
    }
}

/// Tests a tick for the variable `v` of this type, and gives what it becomes. That counts only where nothing is refused.
#[tactic(auto, unfolding(crate::specs::Builds::build_refused, crate::specs::Builds::core_build))]
pub fn build(
    alloc: Global,
    kinds: &Kinds<'_>,
    scope: &Scope<'_>,
    ty: &Ty,
    v: VarId,
    build: &Build,
    found: &mut LeastRefusal,
) -> Result<Form, AllocError>
    ensures refused { OnOk result (found.new.least ≡ least_from found.old.least
        (b.build_refused (kinds_seen kinds.now) (scope_seen scope.now) (ty_of ty.now)
        (tree.build_of build.now))) }
    ensures form { IfOk result (λ f. form_of f
        ≡ b.core_build (kinds_seen kinds.now) (scope_seen scope.now) (ty_of ty.now) v.0
        (tree.build_of build.now)) }
{
    let case = case_of_tick(alloc, kinds, ty, &build.case)?;
    check_case(alloc, kinds, scope, &case, build, found)?;
    case_form(alloc, kinds, scope, v, &case, build)
}
