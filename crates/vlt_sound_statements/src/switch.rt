//! The law of switches.

ghost use Rattle.std.specs.Prelude.{ℕ};
ghost use Rattle.vlt_core.specs.Core.{switch, Arms, Func};
ghost use Rattle.vlt_meaning.specs.Run.{Setup, Meaning};
ghost use Rattle.vlt_sound_worlds.specs.Typed.{IsTyped};
ghost use Rattle.vlt_sound_worlds.specs.Scoped.{HasKeys};
ghost use Rattle.vlt_sound_statements.specs.Makings.{HasCases};
ghost use Rattle.vlt_sound_statements.specs.Statements.{IsSafeForm};
ghost use Rattle.vlt_sound_statements.specs.Arms.{AreSafeArms};

/// A switch is safe where the blocks of its arms are: the case's keys get their objects, and the arm's variables its payload.
pub fn switches_are_safe()
    ensures { (r : Setup) (rest_of : Meaning) (f : Func) (v : ℕ) (arms : Arms) (end : ℕ) →
        IsTyped r.program f → HasKeys f → HasCases r.program f → AreSafeArms r rest_of f arms →
        IsSafeForm r rest_of f (switch v arms end) }
{}
