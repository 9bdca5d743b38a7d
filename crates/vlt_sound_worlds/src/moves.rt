//! Laws on statements that change who holds an object.

ghost use Rattle.std.specs.Prelude.{ℕ};
ghost use Rattle.vlt_core.specs.Core as core;
ghost use Rattle.vlt_sound_worlds.specs.ScopeSteps.{IsScopedStep};

/// Giving an object another state is safe, and so is putting a value's object under a key.
pub fn moving_steps_are_safe()
    ensures becomes { (x s : ℕ) → IsScopedStep (core.become x s) }
    ensures unpacks { (x v : ℕ) → IsScopedStep (core.unpack x v) }
{}
