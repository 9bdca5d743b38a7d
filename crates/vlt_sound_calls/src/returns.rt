//! Laws on returns.

ghost use Rattle.vlt_meaning.specs.Run.{Setup, Meaning};
ghost use Rattle.vlt_sound_calls.specs.Calls.{ReturnsAreSafe};

/// A return that breaks no rule, and whose rows the held map passes, leaves the objects of the clause and the result.
pub fn returns_are_safe()
    ensures { (r : Setup) (rest_of : Meaning) → ReturnsAreSafe r rest_of }
{}
