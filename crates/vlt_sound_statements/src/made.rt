//! Laws on statements that make, build and swap.

ghost use Rattle.std.specs.Prelude.{ℕ, List};
ghost use Rattle.vlt_core.specs.Core.{Operand, make, build, swap};
ghost use Rattle.vlt_sound_worlds.specs.ScopeSteps.{IsScopedStep};
ghost use Rattle.vlt_sound_statements.specs.Steps.{IsMadeStep};

/// A new object, a value of a case, and an exchange of a field's value with a variable's are safe.
pub fn making_is_safe()
    ensures made { (x : ℕ) (args : List Operand) → IsMadeStep (make x args) }
    ensures built { (v case : ℕ) (args : List Operand) → IsMadeStep (build v case args) }
    ensures swapped { (x i v : ℕ) → IsScopedStep (swap x i v) }
{}
