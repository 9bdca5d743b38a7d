//! Laws on calls.

ghost use Rattle.vlt_meaning.specs.Run.{Setup, Meaning};
ghost use Rattle.vlt_sound_calls.specs.Returned.{CalleesAreSafe};
ghost use Rattle.vlt_sound_calls.specs.Calls.{CallsAreSafe};
ghost use Rattle.vlt_sound_calls.specs.Meet.{HasFunctions};
ghost use Rattle.vlt_sound_calls.specs.ReturnHeads.{HasHosts};
ghost use Rattle.vlt_sound_calls.specs.Externals.{ExternalsAreSafe};

/// Calls are safe where the bodies of callees are, and calls of externals are.
pub fn calls_are_safe()
    ensures { (r : Setup) (rest_of : Meaning) → HasFunctions r.program → HasHosts r.program →
        ExternalsAreSafe r → CalleesAreSafe r rest_of → CallsAreSafe r rest_of }
{}
