//! Laws of core programs: nothing goes in and nothing comes out.
//! Read `vlt_core/specs/Kinded.antt`, `Local.antt`, `Derives.antt` and `Faults.antt` first, then `specs/Scoped.antt` and `specs/Fit.antt`.
//! Used by: `vlt_flow` and `vlt_check`. A body is derived just where some annotation holds in it; where none does, something is faulty.
#![tactic(auto)]

ghost use Rattle.std.specs.Prelude.{◌≡◌, ℕ, false, Some, slice_get, Bool, Option, None};
ghost use Rattle.vlt_core.specs.Core.{Func, Program, Tok};
ghost use Rattle.vlt_core.specs.Instances.{instance, IsOrigin};
ghost use Rattle.vlt_core.specs.Kinded.{HasKindedParts};
ghost use Rattle.vlt_core_laws.specs.States.{HasStates};
ghost use Rattle.vlt_core_laws.specs.Arms.{HasArmsStmts};
ghost use Rattle.vlt_core_laws.specs.Fit.{IsFitBody};
ghost use Rattle.vlt_core.specs.Maps.{HeldMap};
ghost use Rattle.vlt_core.specs.Flow.{Block};
ghost use Rattle.vlt_core.specs.Derives.{IsDerived};
ghost use Rattle.vlt_core.specs.Local.{Notes, IsLocalBlock, IsLocalIn};
ghost use Rattle.vlt_core.specs.Found.{Has};
ghost use Rattle.vlt_core.specs.Faults.{HasFault};
ghost use Rattle.vlt_core_laws.specs.Scoped.{IsScopedBlock, IsAbsentOut, IsJumpingBlock, SomeLocal};
ghost use Rattle.vlt_core_laws.specs.Faulted.{HasFaultBlock};
ghost use Rattle.vlt_core_laws.specs.Sweep.{Stock, IsFoundIn};
ghost use Rattle.vlt_core_laws.specs.Shown.{IsFit, IsStart, IsReadOf};
ghost use Rattle.vlt_core_laws.specs.FaultLaws.{HasOneFirstFault};

/// Each body of a program whose parts break no rule on names and types is fit for the check, in each instance.
pub fn kinded_bodies_are_fit()
    ensures { (p : Program) (n : ℕ) (f : Func) (o : Option ℕ) →
        HasKindedParts p → HasStates p →
        slice_get p.fns n ≡ Some f → f.external ≡ false → IsOrigin p f o →
        HasArmsStmts f.body → IsFitBody p (instance p f o) }
{}

/// A body in which some annotation holds is derived, where its rows name tokens in scope alone and the others are absent.
pub fn local_is_derived()
    ensures { (s : Block) (g : Tok → Bool) (h : HeldMap) →
        IsScopedBlock g s → IsAbsentOut g h → SomeLocal s h → IsDerived s h }
{}

/// In a body that is derived, and whose jumps stand in loops, some annotation holds.
pub fn derived_is_local()
    ensures { (s : Block) (h : HeldMap) → IsJumpingBlock false s → IsDerived s h →
        SomeLocal s h }
{}

/// Where an annotation holds in a function's body, none of its rows and joins is faulty.
pub fn local_has_no_fault()
    ensures { (p : Program) (f : Func) (a : Notes) → IsLocalIn p f a → HasFault p f → ⊥ }
{}

/// Where no row and no join is faulty, an annotation that shows what paths find holds in the body.
pub fn faultless_is_local()
    ensures { (s : Block) (k : Tok → Stock) (a : Notes) (h : HeldMap) →
        IsFit s → IsStart h → ((t : Tok) → IsFoundIn t s (Has (h t)) (k t)) → IsReadOf a k →
        ((t : Tok) → HasFaultBlock t s (Has (h t)) → ⊥) → IsLocalBlock a None 0 h s }
{}

/// A program has at most one first fault, told in one way.
pub fn there_is_one_first_fault()
    ensures { (p : Program) → HasOneFirstFault p }
{}
