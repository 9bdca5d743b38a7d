//! Laws on statements that release objects.

ghost use Rattle.std.specs.Prelude.{ℕ};
ghost use Rattle.vlt_core.specs.Core as core;
ghost use Rattle.vlt_sound_worlds.specs.ScopeSteps.{IsScopedStep};

/// Releasing the object of a reference is safe, and so is releasing what an owning variable has.
pub fn ending_steps_are_safe()
    ensures releases { (x : ℕ) → IsScopedStep (core.release x) }
    ensures drops { (v : ℕ) → IsScopedStep (core.drop v) }
{}
