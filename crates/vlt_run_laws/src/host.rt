//! Laws on what a run comes to that began with a host's call: nothing goes in and nothing comes out.
//! Read `vlt_host_laws/specs/Calls.antt` first, then `vlt_host/specs/Machine/Callable.antt` and `specs/Host/Started.antt`.
//! Used by: the command `host`, which opens the machine that a host calls (`vlt_host::machine`) by them.

ghost use Rattle.vlt_core.specs.Core.{Program};
ghost use Rattle.vlt_core.specs.Kinded.{IsKinded};
ghost use Rattle.vlt_core.specs.Derives.{IsAccepted};
ghost use Rattle.vlt_core_laws.specs.States.{HasStates};
ghost use Rattle.vlt_sound.specs.Sizes.{HasSizes};
ghost use Rattle.vlt_sound.specs.Narrow.{HasNarrowHeads};
ghost use Rattle.vlt_run_laws.specs.Blank.{HasBlankExternals, HasFewVars};
ghost use Rattle.vlt_host.specs.Machine.Callable.{IsCallable};
ghost use Rattle.vlt_host.specs.Machine.Started.{KnowsStartedCalls};
ghost use Rattle.vlt_run_laws.specs.Host.Started.{KnowsStartedSteps};

/// Each statement that a permitted call of a host comes to is known, of an accepted program.
pub fn accepted_programs_know_started_steps()
    ensures { (p : Program) → IsKinded p → IsAccepted p → HasSizes p → HasStates p →
        HasNarrowHeads p → KnowsStartedSteps p }
{}

/// Where such a call comes to a call of an external, this lists the keys that it needs, which name objects, and no argument is of
/// a variant.
pub fn accepted_programs_know_started_calls()
    ensures { (p : Program) → IsKinded p → IsAccepted p → HasSizes p → HasStates p →
        HasNarrowHeads p → KnowsStartedCalls p }
{}

/// A machine can be opened for hosts of an accepted program.
pub fn accepted_programs_are_callable()
    ensures { (p : Program) → IsKinded p → IsAccepted p → HasSizes p → HasStates p →
        HasNarrowHeads p → HasFewVars p → HasBlankExternals p → IsCallable p }
{}
