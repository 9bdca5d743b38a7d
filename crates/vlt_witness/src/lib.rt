//! Paths that show a fault: a program and its first fault go in, the choices of one path or of two come out.
//! Read of vlt_core `specs/Witness.antt` first, then `specs/Unfit.antt`, `specs/Ways.antt` and `specs/Search.antt`.
//! Used by: the `path` lines of `explain`.
#![tactic(auto)]

ghost use Rattle.std.specs.Prelude.{◌≡◌, None, IfOk, IfErr, IfSome};
ghost use Rattle.std.specs.Option.{option_map};
ghost use Rattle.vlt_core.specs.Faults.{IsFirstFault};
ghost use Rattle.vlt_core.specs.Witness.{IsWitness};
ghost use Rattle.vlt_core.specs.View.{program_of};
ghost use Rattle.vlt_core.specs.FaultView.{choices_of};
ghost use Rattle.vlt_rows.specs.Unfit.{UnfitBy};
ghost use Rattle.vlt_check.specs.Checks.{fault_of};
ghost use Rattle.vlt_core_laws.specs.Fit.{IsWellFormed};
ghost use Rattle.vlt_check_laws.specs.Shown.{HasWitness};
ghost use Rattle.vlt_witness.specs.Unfit.{IsUnfitAt};

mod aim;
mod explain;
mod rows;
mod search;
mod seen;
mod single;
mod ways;

use crate::explain::paths_for;
use std::alloc::Global;
use vlt_core::{FlowFault, Program, Witness};
pub use vlt_paths::{is_row_witness, is_witness};
use vlt_rows::RowError;

/// A witness of a fault, if it has one; the first fault of a program has one. `Unfit` only where the instance of the fault
/// is: its rows and joins, its keys or variables, or the arms of a switch are more than there are numbers, a row names
/// states of which there is no set, or there is no map for it to begin with. Any other error is want of memory.
pub fn witness(alloc: Global, p: &Program, fault: &FlowFault) -> Result<Option<Witness>, RowError>
    ensures shows { IfOk result (λ r.
        IfSome r (λ x. IsWitness (program_of p.now) (fault_of fault.now) (choices_of x.first)
        (option_map choices_of x.second))) }
    ensures fault { IfOk result (λ r. IfSome r (λ x. x.fault ≡ fault.now)) }
    ensures none { IfOk result (λ r. r ≡ None →
        HasWitness (program_of p.now) (fault_of fault.now) → ⊥) }
    ensures first { IfOk result (λ r. r ≡ None → IsWellFormed (program_of p.now) →
        IsFirstFault (program_of p.now) (fault_of fault.now) → ⊥) }
    ensures unfit { IfErr result
        (UnfitBy (IsUnfitAt (program_of p.now) (fault_of fault.now))) }
{
    match paths_for(alloc, p, fault)? {
        None => Ok(None),
        Some(found) => Ok(Some(Witness {
            fault: *fault,
            first: found.first,
            second: found.second,
        })),
    }
}
