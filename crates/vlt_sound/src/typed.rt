//! Laws on programs that break no rule on names and types.

ghost use Rattle.std.specs.Prelude.{◌≡◌, ℕ, [], Some, slice_get};
ghost use Rattle.vlt_core.specs.Core.{Func, Program};
ghost use Rattle.vlt_core.specs.Kinded.{IsKinded};
ghost use Rattle.vlt_core.specs.KindedBodies.{body_rows, end_broken};
ghost use Rattle.vlt_core_laws.specs.States.{HasStates};
ghost use Rattle.vlt_sound_worlds.specs.Typed.{IsTyped};
ghost use Rattle.vlt_sound_worlds.specs.Scoped.{HasKeys};
ghost use Rattle.vlt_sound_statements.specs.Makings.{HasCases};
ghost use Rattle.vlt_sound_calls.specs.Heads.{HasHead};
ghost use Rattle.vlt_sound_statements.specs.Kinded.{BreakNone};
ghost use Rattle.vlt_sound.specs.Sizes.{HasSizes};

/// What is known of a program that breaks no rule, and of each of its functions, without a run.
pub fn kinded_programs_are_typed()
    ensures typed { (p : Program) (g : ℕ) (f : Func) → IsKinded p → HasSizes p →
        slice_get p.fns g ≡ Some f → IsTyped p f }
    ensures cases { (p : Program) (g : ℕ) (f : Func) → IsKinded p → HasStates p →
        slice_get p.fns g ≡ Some f → HasCases p f }
    ensures keys { (p : Program) (g : ℕ) (f : Func) → IsKinded p →
        slice_get p.fns g ≡ Some f → HasKeys f }
    ensures heads { (p : Program) (g : ℕ) (f : Func) → IsKinded p →
        slice_get p.fns g ≡ Some f → HasHead p f }
    ensures bodies { (p : Program) (g : ℕ) (f : Func) → IsKinded p →
        slice_get p.fns g ≡ Some f → BreakNone (body_rows p f) }
    ensures ends { (p : Program) (g : ℕ) (f : Func) → IsKinded p →
        slice_get p.fns g ≡ Some f → end_broken p f ≡ [] }
{}
