//! Laws on all statements without blocks that call nothing.

ghost use Rattle.vlt_core.specs.Core.{Simple, simple, Func};
ghost use Rattle.vlt_meaning.specs.Run.{Setup, Meaning};
ghost use Rattle.vlt_sound_worlds.specs.Typed.{IsTyped};
ghost use Rattle.vlt_sound_worlds.specs.Scoped.{HasKeys};
ghost use Rattle.vlt_sound_statements.specs.Makings.{HasCases};
ghost use Rattle.vlt_sound_statements.specs.Steps.{IsStepOf};
ghost use Rattle.vlt_sound_statements.specs.Statements.{IsSafeForm};

/// Each statement without blocks that calls nothing is safe, by itself and at a site.
pub fn simple_statements_are_safe()
    ensures steps { (r : Setup) (f : Func) (s : Simple) → IsTyped r.program f → HasKeys f →
        HasCases r.program f → IsStepOf r f s }
    ensures forms { (r : Setup) (rest_of : Meaning) (f : Func) (s : Simple) →
        IsTyped r.program f → HasKeys f → HasCases r.program f →
        IsSafeForm r rest_of f (simple s) }
{}
