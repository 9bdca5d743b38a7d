//! Functions, one after another.

ghost use Rattle.std.specs.Prelude.{◌≡◌, false, IfOk};
ghost use Rattle.vlt_core.specs.View.{program_of, func_of};
ghost use Rattle.vlt_core.specs.Faults.{IsFirstFault};
ghost use Rattle.vlt_core.specs.Instances.{instance, IsOrigin, origins};
ghost use Rattle.vlt_flow.specs.Walks.{IsLeastIn};
ghost use Rattle.vlt_check.specs.Checks.{OnRefused, IsChecked, AreLeastIn, IsLeastOf, HasRefused, IsRefusedInstance, IsRefusedIn, fault_of};
ghost use Rattle.vlt_core_laws.specs.Fit.{IsWellFormed};
ghost use Rattle.vlt_check.specs.Tellings.{IsTold};
ghost use Rattle.vlt_check.specs.Unfit.{IfUnfit, IsUnfitBody, IsUnfit};
ghost use Rattle.vlt_check.specs.declared.program.CheckError.TheVariants.{Memory, Refused, Unfit};
ghost use Rattle.vlt_core.specs.declared.held.FlowFault.{FlowFault};

use std::alloc::{AllocError, AllocFailed, Global};
use thiserror::Error;
use vlt_base::{FnId, Items};
use vlt_core::{FlowFault, Func, Program};
use vlt_faults::fault_in;
use vlt_flow::{Stop, walk};
use vlt_flow_maps::Kept;
use vlt_rows::{RowError, origins};

/// Why a program isn't accepted.
#[derive(Clone, Copy, Debug, PartialEq, Eq, Error)]
pub enum CheckError {
    /// A function breaks the rules on keys, first here.
    #[error("a function breaks the rules on keys")]
    Refused(FlowFault),
    /// The program is unfit for the check: something in it has no number, no place or no set of states.
    #[error("the program is unfit for the check")]
    Unfit,
    #[error("there was no memory")]
    Memory,
}

impl From<AllocError> for CheckError {
    ghost from_gives = { λ _ e. e ≡ Memory };

    fn from(_: AllocError) -> CheckError {
        CheckError::Memory
    }
}

impl<T: Drop> From<AllocFailed<T>> for CheckError {
    ghost from_gives = { λ _ e. e ≡ Memory };

    fn from(_: AllocFailed<T>) -> CheckError {
        CheckError::Memory
    }
}

/// The first fault of a function that is refused in some instance.
fn refusal(alloc: Global, p: &Program, f: &Func, fn_id: FnId) -> CheckError
    requires { IsRefusedInstance (program_of p.now) (func_of f.now) }
    ensures told { (x : FlowFault) → result ≡ Refused x →
        IsTold (program_of p.now) (func_of f.now) fn_id.0 (fault_of x) }
    ensures unfit { result ≡ Unfit → IsUnfitBody (program_of p.now) (func_of f.now) }
{
    match fault_in(alloc, p, f, fn_id) {
        Ok(Some(fault)) => CheckError::Refused(fault),
        Ok(None) => CheckError::Unfit,
        Err(RowError::Unfit) => CheckError::Unfit,
        Err(RowError::Memory) => CheckError::Memory,
        Err(RowError::Refused(_)) => unreachable!(),
    }
}

/// The least maps of a function's body in the instance of this origin.
fn check_instance(
    alloc: Global,
    p: &Program,
    f: &Func,
    origin: Option<u8>,
    fn_id: FnId,
) -> Result<Kept, CheckError>
    requires { IsOrigin (program_of p.now) (func_of f.now) origin }
    ensures ok { IfOk result (IsLeastIn (program_of p.now)
        (instance (program_of p.now) (func_of f.now) origin)) }
    ensures refused { OnRefused result (λ x.
        IsRefusedInstance (program_of p.now) (func_of f.now) ×
        IsTold (program_of p.now) (func_of f.now) fn_id.0 (fault_of x)) }
    ensures unfit { IfUnfit result (IsUnfitBody (program_of p.now) (func_of f.now)) }
{
    match walk(alloc, p, f, origin) {
        Ok(kept) => Ok(kept),
        Err(Stop::Refused) => Err(refusal(alloc, p, f, fn_id)),
        Err(Stop::Unfit) => Err(CheckError::Unfit),
        Err(Stop::Memory) => Err(CheckError::Memory),
    }
}

/// The least maps of a function's body in each of its instances.
fn check_instances(
    alloc: Global,
    p: &Program,
    f: &Func,
    fn_id: FnId,
) -> Result<Items<Kept>, CheckError>
    ensures ok { IfOk result (AreLeastIn (program_of p.now) (func_of f.now)
        (origins (program_of p.now) (func_of f.now))) }
    ensures refused { OnRefused result (λ x.
        IsRefusedInstance (program_of p.now) (func_of f.now) ×
        IsTold (program_of p.now) (func_of f.now) fn_id.0 (fault_of x)) }
    ensures unfit { IfUnfit result (IsUnfitBody (program_of p.now) (func_of f.now)) }
{
    let origins = origins(alloc, p, f)?;
    let mut maps = Items::new(alloc);
    for origin in origins.as_slice() {
        match check_instance(alloc, p, f, *origin, fn_id) {
            Ok(kept) => maps.push(kept)?,
            Err(error) => return Err(error),
        }
    }
    Ok(maps)
}

/// The least maps of a function's body, one for each instance; none for an external.
fn check_func(alloc: Global, p: &Program, f: &Func, fn_id: FnId) -> Result<Items<Kept>, CheckError>
    ensures ok { IfOk result (IsLeastOf (program_of p.now) (func_of f.now)) }
    ensures refused { OnRefused result (λ x. IsRefusedIn (program_of p.now) (func_of f.now) ×
        IsTold (program_of p.now) (func_of f.now) fn_id.0 (fault_of x)) }
    ensures unfit { IfUnfit result (((func_of f.now).external ≡ false) ×
        IsUnfitBody (program_of p.now) (func_of f.now)) }
{
    if f.external {
        Ok(Items::new(alloc))
    } else {
        check_instances(alloc, p, f, fn_id)
    }
}

/// The least maps of the functions, one after another.
pub fn check_funcs(alloc: Global, p: &Program) -> Result<Items<Items<Kept>>, CheckError>
    ensures ok { IfOk result (IsChecked (program_of p.now)) }
    ensures refused { OnRefused result (λ x. HasRefused (program_of p.now) (fault_of x).function) }
    ensures first { OnRefused result (λ x.
        IsWellFormed (program_of p.now) → IsFirstFault (program_of p.now) (fault_of x)) }
    ensures unfit { IfUnfit result (IsUnfit (program_of p.now)) }
{
    let mut all = Items::new(alloc);
    let mut number = 0_u32;
    for f in p.fns.as_slice() {
        match check_func(alloc, p, f, FnId(number)) {
            Ok(maps) => all.push(maps)?,
            Err(error) => return Err(error),
        }
        match number.checked_add(1) {
            Some(next) => number = next,
            None => return Err(CheckError::Unfit),
        }
    }
    Ok(all)
}
