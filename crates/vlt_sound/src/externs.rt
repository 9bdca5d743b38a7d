//! A law on heads of externals.

ghost use Rattle.vlt_core.specs.Core.{Program};
ghost use Rattle.vlt_core.specs.Kinded.{IsKinded};
ghost use Rattle.vlt_sound_calls.specs.ReturnHeads.{HasHosts};
ghost use Rattle.vlt_sound.specs.Narrow.{HasNarrowHeads};

/// What calls of externals want to know of the heads of externals of a program that breaks no rule.
pub fn kinded_externals_are_known()
    ensures { (p : Program) → IsKinded p → HasNarrowHeads p → HasHosts p }
{}
