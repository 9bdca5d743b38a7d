//! The first fault of a body that is refused: from its flow to the earliest faulty row or join, over all tokens.
//! Read `vlt_core/specs/Faults.antt` first, then `specs/Judge/Blames.antt`.
//! Used by: the check. A refusal reports this fault, and a body without one isn't refused.

ghost use Rattle.std.specs.Prelude.{◌≡◌, ℕ, Option, IfOk, IfErr, IfSome, IsNone};
ghost use Rattle.vlt_core.specs.Bodies as core;
ghost use Rattle.vlt_core.specs.Derives.{start_map};
ghost use Rattle.vlt_core.specs.Faults.{HasFault, IsFirstOfAll};
ghost use Rattle.vlt_core.specs.Instances.{instance, IsOrigin};
ghost use Rattle.vlt_core.specs.Local.{Notes, IsLocalIn};
ghost use Rattle.vlt_core.specs.View.{program_of, func_of, tok_of};
ghost use Rattle.vlt_core.specs.FaultView.{kind_of};
ghost use Rattle.vlt_rows.specs.Unfit.{UnfitBy};
ghost use Rattle.vlt_faults.specs.Judge.Faulty.{IsFitIn, AreFitIn, IsUntold, HasUntold};
ghost use Rattle.vlt_faults.specs.Judge.Overs.{AreBounds, IsFirstOver};
ghost use Rattle.vlt_faults.specs.Judge.Instances.{IsSooner, IsNext, AreJudged};

mod blame;
mod extent;
mod judging;
mod rows;
mod telling;
mod tokens;

use crate::judge::tokens::{judge, judge_one, token_bounds};
pub use blame::{Blame, Class, is_no_later};
use std::alloc::Global;
pub use tokens::{TokenBounds, start_ones, statement_count};
use vlt_base::FnId;
use vlt_core::{FlowFault, Func, Program, Tok};
use vlt_flow_maps::start_map_of;
use vlt_rows::{RowError, body_flow, origins};

/// A faulty row or join in one instance of a function.
#[derive(Clone, Copy, Debug)]
pub struct InstanceBlame {
    /// The state by which the instance goes; `None` for a function without a bound entry.
    pub origin: Option<u8>,
    pub blame: Blame,
}

fn fault_of(fn_id: FnId, told: InstanceBlame) -> FlowFault
    ensures function { result.fn_id ≡ fn_id }
    ensures origin { result.origin ≡ told.origin }
    ensures at { result.at ≡ told.blame.at }
    ensures tok { result.tok ≡ told.blame.tok }
    ensures kind { result.kind ≡ told.blame.kind }
{
    FlowFault {
        fn_id,
        origin: told.origin,
        at: told.blame.at,
        tok: told.blame.tok,
        kind: told.blame.kind,
    }
}

/// The first fault of a function's body in the instance of this origin.
fn blame_in(
    alloc: Global,
    p: &Program,
    f: &Func,
    origin: Option<u8>,
) -> Result<Option<Blame>, RowError>
    ensures first { IfOk result (IsFirstOver (λ t. Unit {0})
        (core.body_flow (program_of p.now) (instance (program_of p.now) (func_of f.now) origin))
        (start_map (program_of p.now) (instance (program_of p.now) (func_of f.now) origin))) }
    ensures unfit { IfErr result (UnfitBy (IsUntold (program_of p.now)
        (instance (program_of p.now) (func_of f.now) origin))) }
{
    let flow = body_flow(alloc, p, f, origin)?;
    let start = start_map_of(alloc, p, f, origin)?;
    judge(alloc, &flow, &start)
}

/// The first fault of one token in a function's body, in the instance of this origin, if it has any there. `Unfit` if no
/// fault of that body can be told (`IsUntold`).
pub fn blame_of(
    alloc: Global,
    p: &Program,
    f: &Func,
    origin: Option<u8>,
    tok: Tok,
) -> Result<Option<Blame>, RowError>
    ensures first { IfOk result (IsFirstOver (λ t. t ≡ tok_of tok)
        (core.body_flow (program_of p.now) (instance (program_of p.now) (func_of f.now) origin))
        (start_map (program_of p.now) (instance (program_of p.now) (func_of f.now) origin))) }
    ensures own { IfOk result (λ x. IfSome x (λ b. tok_of b.tok ≡ tok_of tok)) }
    ensures unfit { IfErr result (UnfitBy (IsUntold (program_of p.now)
        (instance (program_of p.now) (func_of f.now) origin))) }
{
    let flow = body_flow(alloc, p, f, origin)?;
    let start = start_map_of(alloc, p, f, origin)?;
    judge_one(alloc, &flow, &start, tok)
}

/// Numbers of keys and variables such that a token beyond them is named by no row of the body, in the instance of this
/// origin, and absent at its start. `Unfit` if no fault of that body can be told (`IsUntold`).
pub fn token_bounds_in(
    alloc: Global,
    p: &Program,
    f: &Func,
    origin: Option<u8>,
) -> Result<TokenBounds, RowError>
    ensures bounds { IfOk result (λ c. AreBounds
        (core.body_flow (program_of p.now) (instance (program_of p.now) (func_of f.now) origin))
        (start_map (program_of p.now) (instance (program_of p.now) (func_of f.now) origin))
        c.keys c.vars) }
    ensures unfit { IfErr result (UnfitBy (IsUntold (program_of p.now)
        (instance (program_of p.now) (func_of f.now) origin))) }
{
    let flow = body_flow(alloc, p, f, origin)?;
    let start = start_map_of(alloc, p, f, origin)?;
    token_bounds(&flow, &start)
}

/// The first of two faults, the second of a later instance; of two at one spot the earlier instance's.
fn sooner(told: InstanceBlame, next: InstanceBlame) -> InstanceBlame
    ensures { IsSooner told next result }
{
    if is_no_later(told.blame, next.blame) {
        told
    } else {
        next
    }
}

/// The first of the faults of earlier instances and of the next one, which goes by this origin.
pub fn first_blame(
    first: Option<InstanceBlame>,
    origin: Option<u8>,
    next: Option<Blame>,
) -> Option<InstanceBlame>
    ensures { IsNext first origin next result }
{
    let Some(blame) = next else {
        return first;
    };
    let next = InstanceBlame { origin, blame };
    match first {
        None => Some(next),
        Some(told) => Some(sooner(told, next)),
    }
}

/// The first fault of a function's body over its instances.
fn told_in(alloc: Global, p: &Program, f: &Func) -> Result<Option<InstanceBlame>, RowError>
    ensures first { IfOk result (AreJudged (program_of p.now) (func_of f.now)) }
    ensures unfit { IfErr result (UnfitBy (HasUntold (program_of p.now) (func_of f.now))) }
{
    let origins = origins(alloc, p, f)?;
    let mut first = None;
    for origin in origins.as_slice() {
        first = first_blame(first, *origin, blame_in(alloc, p, f, *origin)?);
    }
    Ok(first)
}

/// The first fault of a function's body over its instances, if one of them has any: at one spot that of the least origin.
/// There is one where in some instance no annotation holds. `Unfit` where the body of an instance has no flow or no map to
/// begin with, or where something in it has no number (`HasUntold`).
pub fn fault_in(
    alloc: Global,
    p: &Program,
    f: &Func,
    fn_id: FnId,
) -> Result<Option<FlowFault>, RowError>
    ensures first { IfOk result (λ x. IfSome x
        (λ y. AreFitIn (program_of p.now) (func_of f.now) → IsFirstOfAll (program_of p.now)
        (func_of f.now) y.origin y.at (tok_of y.tok) (kind_of y.kind))) }
    ensures function { IfOk result (λ x. IfSome x (λ y. y.fn_id ≡ fn_id)) }
    ensures none { IfOk result (λ x. IsNone x → (o : Option ℕ) →
        IsOrigin (program_of p.now) (func_of f.now) o →
        HasFault (program_of p.now) (instance (program_of p.now) (func_of f.now) o) → ⊥) }
    ensures always { IfOk result (λ x. IsNone x → (o : Option ℕ) →
        IsOrigin (program_of p.now) (func_of f.now) o →
        IsFitIn (program_of p.now) (instance (program_of p.now) (func_of f.now) o) →
        ((a : Notes) →
        IsLocalIn (program_of p.now) (instance (program_of p.now) (func_of f.now) o) a → ⊥) →
        ⊥) }
    ensures unfit { IfErr result (UnfitBy (HasUntold (program_of p.now) (func_of f.now))) }
{
    match told_in(alloc, p, f)? {
        None => Ok(None),
        Some(told) => Ok(Some(fault_of(fn_id, told))),
    }
}
