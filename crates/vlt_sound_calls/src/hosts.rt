//! A law on calls of externals.

ghost use Rattle.vlt_meaning.specs.Run.{Setup};
ghost use Rattle.vlt_sound_calls.specs.Externals.{ExternalsAreSafe};
ghost use Rattle.vlt_sound_calls.specs.HostAnswers.{AnswersAreSafe};

/// Calls of externals are safe where what is done with answers is: what the host takes is there, and goes out.
pub fn externals_are_safe()
    ensures { (r : Setup) → AnswersAreSafe r → ExternalsAreSafe r }
{}
