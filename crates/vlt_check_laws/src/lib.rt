//! Laws of the check: nothing goes in and nothing comes out.
//! Read `specs/Judged.antt` first, then `specs/Shown.antt`.
//! Used by: `check`, which decides each program, and `explain` and `vaultq paths`, which show why.
#![tactic(auto)]

ghost use Rattle.vlt_core.specs.Core.{Program, Func};
ghost use Rattle.vlt_core_laws.specs.Fit.{IsWellFormed};
ghost use Rattle.vlt_base.specs.Sure.{Surely};
ghost use Rattle.vlt_check_laws.specs.Judged.{IsJudged};
ghost use Rattle.std.specs.Prelude.{List, Option};
ghost use Rattle.vlt_core.specs.Derives.{IsAccepted};
ghost use Rattle.vlt_core.specs.Local.{Notes, IsLocalIn};
ghost use Rattle.vlt_core.specs.Faults.{FlowFault, IsFirstFault};
ghost use Rattle.vlt_core.specs.Witness.{Choice, IsWitnessIn};
ghost use Rattle.vlt_check_laws.specs.Shown.{HasWitness, IsFault};

/// It can't be that a program that breaks no rule on names and types is neither accepted nor has a first fault.
pub fn programs_are_judged()
    ensures { (p : Program) → IsWellFormed p → Surely (IsJudged p) }
{}

/// In a body of which paths show a fault no annotation holds.
pub fn witness_refutes()
    ensures { (p : Program) (f : Func) (x : FlowFault) (first : List Choice)
        (second : Option (List Choice)) (a : Notes) →
        IsWitnessIn p f x first second → IsLocalIn p f a → ⊥ }
{}

/// A program that is accepted has no witness of any fault.
pub fn accepted_has_no_witness()
    ensures { (p : Program) (x : FlowFault) → IsWellFormed p → IsAccepted p →
        HasWitness p x → ⊥ }
{}

/// The first fault of a program has a witness.
pub fn first_fault_has_witness()
    ensures { (p : Program) (x : FlowFault) → IsWellFormed p → IsFirstFault p x →
        HasWitness p x }
{}

/// Each fault of a program has a witness, the first one of its body or not.
pub fn faults_have_witnesses()
    ensures { (p : Program) (x : FlowFault) → IsWellFormed p → IsFault p x → HasWitness p x }
{}
