//! The check of whole programs: from a core program to the least maps of each body, or the first fault.
//! Read `specs/Checks.antt` first, and of vlt_core `specs/Local.antt` and `specs/Derives.antt`.
//! Used by: verdicts. That a body is derived just where some annotation holds in it is a law of `vlt_core_laws`.
#![tactic(auto)]

ghost use Rattle.std.specs.Prelude.{◌≡◌, IfOk, OnOk};
ghost use Rattle.vlt_core.specs.View.{program_of};
ghost use Rattle.vlt_core.specs.Derives.{IsAccepted};
ghost use Rattle.vlt_core.specs.Faults.{IsFirstFault, FlowFault};
ghost use Rattle.vlt_check.specs.Checks.{OnRefused, IsChecked, HasRefused, fault_of};
ghost use Rattle.vlt_check.specs.Unfit.{IfUnfit, IsUnfit};
ghost use Rattle.vlt_core_laws.specs.Fit.{IsWellFormed};

mod laws;
mod program;

pub use laws::accepted_has_no_fault;
pub use program::CheckError;
use program::check_funcs;
use std::alloc::Global;
use vlt_base::Items;
use vlt_core::Program;
use vlt_flow_maps::Kept;

/// The least maps of each function with a body in each of its instances, in the order of the text and by ascending origin;
/// `Refused` where the rules on keys are broken, with the first fault; `Unfit` where the program is (`IsUnfit`).
pub fn check(alloc: Global, p: &Program) -> Result<Items<Items<Kept>>, CheckError>
    ensures checked { IfOk result (IsChecked (program_of p.now)) }
    ensures accepted { OnOk result (IsWellFormed (program_of p.now) →
        IsAccepted (program_of p.now)) }
    ensures refused { OnRefused result (λ x. HasRefused (program_of p.now) (fault_of x).function) }
    ensures first { OnRefused result (λ x.
        IsWellFormed (program_of p.now) → IsFirstFault (program_of p.now) (fault_of x)) }
    ensures only { OnRefused result (λ x.
        IsWellFormed (program_of p.now) → (y : FlowFault) → IsFirstFault (program_of p.now) y
        → y ≡ fault_of x) }
    ensures not_accepted { OnRefused result (λ x.
        IsWellFormed (program_of p.now) → IsAccepted (program_of p.now) → ⊥) }
    ensures unfit { IfUnfit result (IsUnfit (program_of p.now)) }
{
    check_funcs(alloc, p)
}
