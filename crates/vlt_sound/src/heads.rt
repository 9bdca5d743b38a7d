//! Laws on the functions of programs that break no rule.

ghost use Rattle.vlt_core.specs.Core.{Program};
ghost use Rattle.vlt_core.specs.Kinded.{IsKinded};
ghost use Rattle.vlt_sound.specs.Sizes.{HasSizes};
ghost use Rattle.vlt_sound_calls.specs.Meet.{HasFunctions};

/// What calls want to know of the functions of a program that breaks no rule.
pub fn kinded_functions_are_known()
    ensures { (p : Program) → IsKinded p → HasSizes p → HasFunctions p }
{}
