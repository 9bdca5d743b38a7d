//! Laws on statements that open objects.

ghost use Rattle.std.specs.Prelude.{ℕ, List};
ghost use Rattle.vlt_core.specs.Core.{open_into};
ghost use Rattle.vlt_sound_worlds.specs.ScopeSteps.{IsScopedStep};

/// Opening an object into variables is safe.
pub fn opening_is_safe()
    ensures { (x : ℕ) (vs : List ℕ) → IsScopedStep (open_into x vs) }
{}
