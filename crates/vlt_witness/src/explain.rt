//! The paths that show a fault.

ghost use Rattle.std.specs.Prelude.{◌≡◌, ◌↔◌, Some, None, IfOk, IfErr, IfSome, MatchResult, slice_get};
ghost use Rattle.std.specs.Option.{option_map, option_copied};
ghost use Rattle.vlt_core.specs.Found.{One, Has};
ghost use Rattle.vlt_core.specs.Derives.{start_map};
ghost use Rattle.vlt_core.specs.Instances.{instance};
ghost use Rattle.vlt_core.specs.Witness.{IsWitness, IsWitnessIn};
ghost use Rattle.vlt_core.specs.HeldView.{wanted_of};
ghost use Rattle.vlt_core.specs.View.{program_of, func_of, tok_of};
ghost use Rattle.vlt_core.specs.FaultView.{choices_of};
ghost use Rattle.vlt_core_laws.specs.Sweep.{In};
ghost use Rattle.vlt_faults.specs.Finding.Ones.{many_of};
ghost use Rattle.vlt_flow_maps.specs.Unfit.{HasNoStart};
ghost use Rattle.vlt_keyset.specs.Held.{map_of};
ghost use Rattle.vlt_rows.specs.FlowView.{block_view};
ghost use Rattle.vlt_rows.specs.Unfit.{UnfitBy};
ghost use Rattle.vlt_check.specs.Checks.{fault_of};
ghost use Rattle.vlt_check_laws.specs.Shown.{HasWitness};
ghost use Rattle.vlt_witness.specs.Ways.{end_of_join, IsSeen, OnSeen};
ghost use Rattle.vlt_paths.specs.Shown.{ShowsIn};
ghost use Rattle.vlt_witness.specs.Unfit.{IsUnfit, IsUnfitIn, IsUnfitAt};
ghost use Rattle.vlt_witness.specs.Parts.{LargeBlock};
ghost use Rattle.vlt_witness.specs.Shows.{ArePaths, GivesPath, GivesPaths, IsPair, IsShownRow, IsShownJoin, IsShownBy};

use crate::aim::{Aim, Goal};
use crate::search::{no_jumps, search_block};
use crate::seen::{JoinName, Seen, is_same_join};
use crate::single::Single;
use crate::ways::Way;
use std::alloc::{AllocError, Global};
use vlt_base::{FnId, Items};
use vlt_core::{Choice, FaultKind, FlowFault, Func, Program, Status, Tok, Wanted};
use vlt_faults::{Ones, made};
use vlt_flow_maps::start_map_of;
use vlt_keyset::Held;
use vlt_rows::{FlowBlock, RowError, body_flow, has_instance};

/// The paths of a witness.
#[derive(Drop)]
pub struct Paths {
    pub first: Items<Choice>,
    pub second: Option<Items<Choice>>,
}

/// The single statuses that a token begins with.
fn start_ones(start: &Held, tok: Tok) -> Ones
    ensures { (o : One) → In (many_of result) o ↔ Has (map_of start.now (tok_of tok)) o }
{
    if !start.has(tok) {
        return made(true, false, 0, 0);
    }
    match start.status(tok) {
        Status::Absent => made(true, false, 0, 0),
        Status::Held(states) => made(false, false, states.mask(), 0),
        Status::Lent(states) => made(false, false, 0, states.mask()),
        Status::Full => made(false, true, 0, 0),
    }
}

/// All that meets the aim in a body, from each of these statuses.
fn all_paths(alloc: Global, aim: Aim, body: &FlowBlock, ones: Ones) -> Result<Items<Seen>, RowError>
    ensures { MatchResult result (ArePaths aim (block_view body.now) (In (many_of ones)))
        (UnfitBy (LargeBlock 0 (block_view body.now))) }
{
    let mut ways = Items::new(alloc);
    ways.push(Way {
        from: Single::Absent,
        ones,
        path: Items::new(alloc),
    })?;
    let mut met = Items::new(alloc);
    let mut jumps = no_jumps(alloc);
    let _end = search_block(alloc, aim, body, 0, ways, &mut jumps, &mut met)?;
    Ok(met)
}

/// The path to a row or to this join, if one is among those.
fn find(
    alloc: Global,
    list: &[Seen],
    join: Option<JoinName>,
) -> Result<Option<Items<Choice>>, AllocError>
    ensures { IfOk result (GivesPath (OnSeen list.now) (end_of_join join)) }
{
    for seen in list {
        if is_same_join(seen.join, join) {
            let path = Items::from_slice(alloc, seen.path.as_slice())?;
            return Ok(Some(path));
        }
    }
    Ok(None)
}

/// A path to a row that refuses.
fn row_paths(
    alloc: Global,
    tok: Tok,
    at: u32,
    wanted: Wanted,
    body: &FlowBlock,
    ones: Ones,
) -> Result<Option<Paths>, RowError>
    ensures { MatchResult result (GivesPaths (IsShownRow (block_view body.now) (In (many_of ones))
        (tok_of tok) at (wanted_of wanted))) (UnfitBy (LargeBlock 0 (block_view body.now))) }
{
    let aim = Aim {
        tok,
        at,
        goal: Goal::Refusal(wanted),
    };
    let list = all_paths(alloc, aim, body, ones)?;
    match find(alloc, list.as_slice(), None)? {
        None => Ok(None),
        Some(first) => Ok(Some(Paths {
            first,
            second: None,
        })),
    }
}

/// The path to this join, and another one to it.
fn second_of(
    alloc: Global,
    seen: &Seen,
    join: JoinName,
    present: &[Seen],
) -> Result<Option<Paths>, AllocError>
    requires { seen.now.join ≡ Some join }
    ensures { IfOk result (GivesPaths (IsPair (IsSeen seen.now) (OnSeen present.now))) }
{
    match find(alloc, present, Some(join))? {
        None => Ok(None),
        Some(second) => {
            let first = Items::from_slice(alloc, seen.path.as_slice())?;
            Ok(Some(Paths {
                first,
                second: Some(second),
            }))
        }
    }
}

/// A path, and another one to its join.
fn other(alloc: Global, seen: &Seen, present: &[Seen]) -> Result<Option<Paths>, AllocError>
    ensures { IfOk result (GivesPaths (IsPair (IsSeen seen.now) (OnSeen present.now))) }
{
    match seen.join {
        None => Ok(None),
        Some(join) => second_of(alloc, seen, join, present),
    }
}

/// Two paths to one join.
fn pair(alloc: Global, absent: &[Seen], present: &[Seen]) -> Result<Option<Paths>, AllocError>
    ensures { IfOk result (GivesPaths (IsPair (OnSeen absent.now) (OnSeen present.now))) }
{
    for seen in absent {
        match other(alloc, seen, present)? {
            None => {}
            Some(found) => return Ok(Some(found)),
        }
    }
    Ok(None)
}

/// Two paths to one join, the first without the token and the second with it.
fn join_paths(
    alloc: Global,
    tok: Tok,
    at: u32,
    body: &FlowBlock,
    ones: Ones,
) -> Result<Option<Paths>, RowError>
    ensures { MatchResult result (GivesPaths (IsShownJoin (block_view body.now) (In (many_of ones))
        (tok_of tok) at)) (UnfitBy (LargeBlock 0 (block_view body.now))) }
{
    let absent = Aim {
        tok,
        at,
        goal: Goal::Absent,
    };
    let present = Aim {
        tok,
        at,
        goal: Goal::Present,
    };
    let first = all_paths(alloc, absent, body, ones)?;
    let second = all_paths(alloc, present, body, ones)?;
    Ok(pair(alloc, first.as_slice(), second.as_slice())?)
}

fn paths_of(
    alloc: Global,
    fault: &FlowFault,
    body: &FlowBlock,
    ones: Ones,
) -> Result<Option<Paths>, RowError>
    ensures { MatchResult result (GivesPaths (IsShownBy (block_view body.now) (In (many_of ones))
        (fault_of fault.now))) (UnfitBy (LargeBlock 0 (block_view body.now))) }
{
    match fault.kind {
        FaultKind::Row { wanted, .. } => row_paths(alloc, fault.tok, fault.at, wanted, body, ones),
        FaultKind::Join { .. } => join_paths(alloc, fault.tok, fault.at, body, ones),
    }
}

/// The single statuses that the fault's token begins with in its instance of a function.
fn start_of(alloc: Global, p: &Program, f: &Func, fault: &FlowFault) -> Result<Ones, RowError>
    ensures { MatchResult result (λ ones. (o : One) → In (many_of ones) o ↔ Has (start_map
        (program_of p.now) (instance (program_of p.now) (func_of f.now) fault.now.origin)
        (tok_of fault.now.tok)) o) (UnfitBy (HasNoStart (program_of p.now)
        (instance (program_of p.now) (func_of f.now) fault.now.origin))) }
{
    let start = start_map_of(alloc, p, f, fault.origin)?;
    Ok(start_ones(&start, fault.tok))
}

/// The paths in a function's body in the fault's instance.
fn paths_in(
    alloc: Global,
    p: &Program,
    f: &Func,
    fault: &FlowFault,
) -> Result<Option<Paths>, RowError>
    ensures { MatchResult result (GivesPaths (IsWitnessIn (program_of p.now)
        (instance (program_of p.now) (func_of f.now) fault.now.origin) (fault_of fault.now)))
        (UnfitBy (IsUnfit (program_of p.now)
        (instance (program_of p.now) (func_of f.now) fault.now.origin))) }
{
    let flow = body_flow(alloc, p, f, fault.origin)?;
    let ones = start_of(alloc, p, f, fault)?;
    paths_of(alloc, fault, &flow, ones)
}

fn func_at(p: &Program, fn_id: FnId) -> Option<&Func>
    ensures { option_map func_of (option_copied result)
        ≡ slice_get (program_of p.now).fns fn_id.0 }
{
    p.fns.get(fn_id.0 as usize)
}

/// The paths in a function, if it has a body and the fault's instance.
fn paths_at(
    alloc: Global,
    p: &Program,
    f: &Func,
    fault: &FlowFault,
) -> Result<Option<Paths>, RowError>
    ensures { MatchResult result (GivesPaths (ShowsIn (program_of p.now) (func_of f.now)
        (fault_of fault.now))) (UnfitBy (IsUnfitIn (program_of p.now) (func_of f.now)
        (fault_of fault.now))) }
{
    if !has_instance(p, f, fault.origin) {
        return Ok(None);
    }
    paths_in(alloc, p, f, fault)
}

/// The paths of a witness of the fault, if it has one.
pub fn paths_for(alloc: Global, p: &Program, fault: &FlowFault) -> Result<Option<Paths>, RowError>
    ensures shows { IfOk result (λ r.
        IfSome r (λ x. IsWitness (program_of p.now) (fault_of fault.now) (choices_of x.first)
        (option_map choices_of x.second))) }
    ensures none { IfOk result (λ r. r ≡ None →
        HasWitness (program_of p.now) (fault_of fault.now) → ⊥) }
    ensures unfit { IfErr result (UnfitBy (IsUnfitAt (program_of p.now) (fault_of fault.now))) }
{
    match func_at(p, fault.fn_id) {
        None => Ok(None),
        Some(f) => paths_at(alloc, p, f, fault),
    }
}
