//! Laws on the answers of externals.

ghost use Rattle.std.specs.Prelude.{◌≡◌, ℤ, List, Some};
ghost use Rattle.vlt_core.specs.Core.{Func, Program};
ghost use Rattle.vlt_meaning.specs.HostAnswers.{Answer, answer_of};
ghost use Rattle.vlt_sound_worlds.specs.Said.{IsAnswerOf};

/// An answer whose numbers can be read says states and a result as the external's head asks for them.
pub fn answers_say_what_is_asked()
    ensures { (p : Program) (g : Func) (numbers : List ℤ) (a : Answer) →
        answer_of p g numbers ≡ Some a → IsAnswerOf p g a }
{}
