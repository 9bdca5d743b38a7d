//! The law of focuses.

ghost use Rattle.std.specs.Prelude.{ℕ};
ghost use Rattle.vlt_core.specs.Core.{focus, Block, Func};
ghost use Rattle.vlt_meaning.specs.Run.{Setup, Meaning};
ghost use Rattle.vlt_sound_worlds.specs.Typed.{IsTyped};
ghost use Rattle.vlt_sound_worlds.specs.Scoped.{HasKeys};
ghost use Rattle.vlt_sound_statements.specs.Statements.{IsSafeForm, IsSafeBlock};

/// A focus is safe where its block is: the guard is lent, the object is held under its own key, and both go back at the end.
pub fn focuses_are_safe()
    ensures { (r : Setup) (rest_of : Meaning) (f : Func) (y z : ℕ) (b : Block) →
        IsTyped r.program f → HasKeys f → IsSafeBlock r rest_of f b →
        IsSafeForm r rest_of f (focus y z b) }
{}
