//! What switches, their arms and foci break by themselves.

ghost use Rattle.std.specs.Prelude.{◌≡◌, ◌==◌, ◌&&◌, nat_lt, length, Some, IfOk, OnOk};
ghost use Rattle.std.specs.List.{list_all};
ghost use Rattle.vlt_core.specs.View.{program_of, func_of, vars_of, arms_of};
ghost use Rattle.vlt_core.specs.Lookups as lookups;
ghost use Rattle.vlt_core.specs.KindedHeads.{has, are_apart};
ghost use Rattle.vlt_core.specs.KindedStatements as statements;
ghost use Rattle.vlt_core.specs.KindedBodies as s;
ghost use Rattle.cert_kinds_types.specs.Least.{least};
ghost use Rattle.cert_kinds_exprs.specs.Scopes.{ids_of};
ghost use Rattle.cert_kinds_exprs.specs.Wanted.{wanted_types};
ghost use Rattle.cert_kinds_stmts.specs.Opened.{opened_var_broken};
ghost use Rattle.cert_kinds_blocks.specs.Switches as z;

use cert_kinds_exprs::{Ids, Wanted, binding_broken, own_key, use_broken};
use cert_kinds_stmts::{
    case_broken, guarded_object, is_variant_type, objects_apart, opened_var_broken, payload_wanted,
    tracked_object, variant_object, wants_guarded, wants_tracked,
};
use cert_kinds_types::{cases, is_variant, lesser, unless};
use std::alloc::AllocError;
use vlt_base::{TypeId, VarId};
use vlt_core::{Arm, Func, Program, rules};

fn has_case(arms: &[Arm], case: u8) -> bool
    ensures { result ≡ has (z.cases_of arms.now) case }
{
    for arm in arms {
        if arm.case == case {
            return true;
        }
    }
    false
}

fn cases_apart(arms: &[Arm]) -> bool
    ensures { result ≡ are_apart (z.cases_of arms.now) }
{
    match arms {
        [] => true,
        [arm, rest @ ..] => !has_case(rest, arm.case) && cases_apart(rest),
    }
}

fn cases_below(arms: &[Arm], count: usize) -> bool
    ensures { result ≡ list_all (λ c. nat_lt c count) (z.cases_of arms.now) }
{
    for arm in arms {
        if arm.case as usize >= count {
            return false;
        }
    }
    true
}

/// Whether the arms are of each of so many cases, once.
#[tactic(auto, using(crate::proofs::Arms::as_many_cases))]
fn covers(arms: &[Arm], count: usize) -> bool
    ensures { result ≡ z.covers (s.arm_cases (arms_of arms.now)) count }
{
    cases_apart(arms) && arms.len() == count && cases_below(arms, count)
}

fn wants_switched(f: &Func, v: VarId) -> Option<u8>
    ensures { result ≡ least (z.wants_switched (lookups.var_type (func_of f.now) v.0)) }
{
    match f.var_type(v) {
        None => None,
        Some(ty) => unless(is_variant_type(ty), rules::WRONG_SWITCH),
    }
}

fn cover_broken(p: &Program, t: TypeId, arms: &[Arm]) -> Option<u8>
    ensures { result ≡ least (z.cover_broken (program_of p.now) t.0
        (s.arm_cases (arms_of arms.now))) }
{
    if is_variant(p, t) {
        unless(covers(arms, cases(p, t).len()), rules::WRONG_SWITCH)
    } else {
        None
    }
}

fn covers_variant(p: &Program, f: &Func, v: VarId, arms: &[Arm]) -> Option<u8>
    ensures { result ≡ least (z.covers_variant (program_of p.now)
        (statements.variant_args (lookups.var_type (func_of f.now) v.0))
        (s.arm_cases (arms_of arms.now))) }
{
    match variant_object(f, v) {
        None => None,
        Some(o) => cover_broken(p, o.type_id, arms),
    }
}

/// What a switch breaks, its arms aside.
#[tactic(auto, using(cert_kinds_types::proofs::Smallest::joined))]
pub fn switch_broken(p: &Program, f: &Func, ids: &Ids, v: VarId, arms: &[Arm]) -> Option<u8>
    ensures { result ≡ least (s.switch_broken (program_of p.now) (func_of f.now)
        (ids_of ids.now) v.0 (arms_of arms.now)) }
{
    lesser(
        lesser(use_broken(f, ids, v), wants_switched(f, v)),
        covers_variant(p, f, v, arms),
    )
}

fn arm_vars_broken(
    f: &Func,
    ids: &mut Ids,
    wanted: Wanted,
    vars: &[VarId],
) -> Result<Option<u8>, AllocError>
    ensures broken { IfOk result (λ found. found ≡ least (s.arm_vars_broken (func_of f.now)
        (ids_of ids.old) (wanted_types wanted.entry) (vars_of vars.now))) }
    ensures ids { OnOk result (ids_of ids.new ≡ s.with_vars (func_of f.now) (vars_of vars.now)
        (ids_of ids.old)) }
{
    let mut found = None;
    for i in 0..vars.len() {
        let v = vars[i];
        found = lesser(found, opened_var_broken(f, ids, wanted.get(i), v));
        ids.bind_var(f, v)?;
    }
    Ok(found)
}

#[tactic(auto, using(cert_kinds_stmts::proofs::Counts::as_many_vars))]
fn arm_case_broken(p: &Program, f: &Func, v: VarId, case: u8, vars: &[VarId]) -> Option<u8>
    ensures { result ≡ least (statements.case_broken (program_of p.now) case
        (length (vars_of vars.now))
        (statements.variant_args (lookups.var_type (func_of f.now) v.0))) }
{
    case_broken(p, f, v, case, vars.len())
}

/// What an arm of a switch on `v` breaks, its block aside. Its variables are bound, in no block. An
/// error is a refused allocation.
#[tactic(auto, using(cert_kinds_types::proofs::Smallest::joined))]
pub fn arm_broken(
    p: &Program,
    f: &Func,
    ids: &mut Ids,
    v: VarId,
    case: u8,
    vars: &[VarId],
) -> Result<Option<u8>, AllocError>
    ensures broken { IfOk result (λ found. found ≡ least (s.arm_broken (program_of p.now)
        (func_of f.now) (ids_of ids.old) v.0 case (vars_of vars.now))) }
    ensures ids { OnOk result (ids_of ids.new ≡ s.with_vars (func_of f.now) (vars_of vars.now)
        (ids_of ids.old)) }
{
    let first = arm_case_broken(p, f, v, case, vars);
    let others = arm_vars_broken(f, ids, payload_wanted(p, f, v, case), vars)?;
    Ok(lesser(first, others))
}

/// What `focus y as z` breaks, its block aside.
#[tactic(auto, using(cert_kinds_types::proofs::Smallest::joined))]
pub fn focus_broken(p: &Program, f: &Func, ids: &Ids, y: VarId, z: VarId) -> Option<u8>
    ensures { result ≡ least (s.focus_broken (program_of p.now) (func_of f.now)
        (ids_of ids.now) y.0 z.0) }
{
    lesser(
        lesser(
            lesser(
                lesser(use_broken(f, ids, y), wants_guarded(f, y)),
                wants_tracked(f, z),
            ),
            objects_apart(guarded_object(f, y), tracked_object(f, z)),
        ),
        binding_broken(f, ids, own_key(f, z), z),
    )
}

/// A focus binds its variable and its key, in no block. An error is a refused allocation.
pub fn bind_focus(f: &Func, ids: &mut Ids, z: VarId) -> Result<(), AllocError>
    ensures { OnOk result (ids_of ids.new ≡ s.with_focus (func_of f.now) z.0 (ids_of ids.old)) }
{
    ids.bind_key(f, own_key(f, z))?;
    ids.bind_var(f, z)
}
