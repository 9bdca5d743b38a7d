//! Faults of tokens, one after another, in order.

ghost use Rattle.std.specs.Prelude.{◌≡◌, ◌≤◌, IfOk, IfErr, OnOk, length};
ghost use Rattle.vlt_core.specs.View.{program_of, func_of};
ghost use Rattle.vlt_rows.specs.Unfit.{UnfitBy};
ghost use Rattle.vlt_faults.specs.Judge.Faulty.{AreFitIn, HasUntold};
ghost use Rattle.vlt_all_faults_laws.specs.Each.{AreFindings};
ghost use Rattle.vlt_all_faults_laws.specs.Listing.{IsPlace};
ghost use Rattle.vlt_all_faults.specs.Tokens.{IsEntered, IsListed, IsBelow, findings_of, finding_of};

use crate::token::{first_fault, token_bounds};
use std::alloc::{AllocError, Global};
use vlt_base::{KeyId, VarId};
use vlt_core::{Func, Program, Tok};
use vlt_faults::{InstanceBlame, is_no_later};
use vlt_rows::RowError;

/// The place of a fault in a list that is in order.
fn place_in(list: &[InstanceBlame], fault: InstanceBlame) -> usize
    ensures within { result ≤ length list.now }
    ensures place { IsPlace (finding_of fault) (findings_of list.now) result }
{
    let mut n = 0;
    for other in list {
        if !is_no_later(other.blame, fault.blame) {
            return n;
        }
        n += 1;
    }
    n
}

/// Puts a fault into a list at its place, if there is one.
fn enter(list: &mut Vec<InstanceBlame>, fault: Option<InstanceBlame>) -> Result<(), AllocError>
    ensures { OnOk result (IsEntered fault list.old.items list.new.items) }
{
    let Some(fault) = fault else {
        return Ok(());
    };
    let n = place_in(list.as_slice(), fault);
    list.insert(n, fault)?;
    Ok(())
}

/// Adds the faults of the keys below a number.
fn with_keys(
    alloc: Global,
    p: &Program,
    f: &Func,
    count: u32,
    list: Vec<InstanceBlame>,
) -> Result<Vec<InstanceBlame>, RowError>
    requires { IsListed (IsBelow 0 0) (program_of p.now) (func_of f.now) list.items }
    ensures listed { IfOk result (λ v. IsListed (IsBelow count 0) (program_of p.now)
        (func_of f.now) v.items) }
    ensures unfit { IfErr result (UnfitBy (HasUntold (program_of p.now) (func_of f.now))) }
{
    let mut list = list;
    for key in 0..count {
        enter(&mut list, first_fault(alloc, p, f, Tok::Key(KeyId(key)))?)?;
    }
    Ok(list)
}

/// Adds the faults of the variables below a number.
fn with_vars(
    alloc: Global,
    p: &Program,
    f: &Func,
    keys: u32,
    count: u32,
    list: Vec<InstanceBlame>,
) -> Result<Vec<InstanceBlame>, RowError>
    requires { IsListed (IsBelow keys 0) (program_of p.now) (func_of f.now) list.items }
    ensures listed { IfOk result (λ v. IsListed (IsBelow keys count) (program_of p.now)
        (func_of f.now) v.items) }
    ensures unfit { IfErr result (UnfitBy (HasUntold (program_of p.now) (func_of f.now))) }
{
    let mut list = list;
    for var in 0..count {
        enter(&mut list, first_fault(alloc, p, f, Tok::Var(VarId(var)))?)?;
    }
    Ok(list)
}

/// The faults of a function with a body. `Unfit` where in some instance none can be fault (`HasUntold`).
pub fn faults_in(alloc: Global, p: &Program, f: &Func) -> Result<Vec<InstanceBlame>, RowError>
    ensures findings { IfOk result (λ v. AreFitIn (program_of p.now) (func_of f.now) →
        AreFindings (program_of p.now) (func_of f.now) (findings_of v.items)) }
    ensures unfit { IfErr result (UnfitBy (HasUntold (program_of p.now) (func_of f.now))) }
{
    let bounds = token_bounds(alloc, p, f)?;
    let keys = with_keys(alloc, p, f, bounds.keys, Vec::new(alloc))?;
    let list = with_vars(alloc, p, f, bounds.keys, bounds.vars, keys)?;
    Ok(list)
}
