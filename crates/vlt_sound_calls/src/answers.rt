//! A law on answers of externals.

ghost use Rattle.vlt_meaning.specs.Run.{Setup};
ghost use Rattle.vlt_sound_calls.specs.HostAnswers.{AnswersAreSafe};

/// Where heads of externals are as the rules want them, what is done with an answer ends in no
/// fault, whatever its numbers.
pub fn answers_are_safe()
    ensures { (r : Setup) → AnswersAreSafe r }
{}
