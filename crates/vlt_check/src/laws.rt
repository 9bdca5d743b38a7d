//! What accepted programs don't have.

ghost use Rattle.std.specs.Prelude.{◌≡◌, ℕ, Option, Some, slice_get, false};
ghost use Rattle.vlt_core.specs.Core.{Func, Program};
ghost use Rattle.vlt_core.specs.Instances.{instance, IsOrigin};
ghost use Rattle.vlt_core.specs.Derives.{IsAccepted};
ghost use Rattle.vlt_core.specs.Faults.{FlowFault, HasFault, IsFirstFault};
ghost use Rattle.vlt_core_laws.specs.Fit.{IsWellFormed};

/// A program that is accepted has no fault: no path breaks a rule on keys in any instance of its
/// functions.
pub fn accepted_has_no_fault()
    ensures none { (p : Program) (g : ℕ) (f : Func) (o : Option ℕ) → IsWellFormed p →
        IsAccepted p → slice_get p.fns g ≡ Some f → f.external ≡ false → IsOrigin p f o →
        HasFault p (instance p f o) → ⊥ }
    ensures no_first { (p : Program) (x : FlowFault) → IsWellFormed p → IsAccepted p →
        IsFirstFault p x → ⊥ }
{}
