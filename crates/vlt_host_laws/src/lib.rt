//! Laws on hosts that call a program's functions: nothing goes in and nothing comes out.
//! Read `specs/Promise.antt` first: what is promised of programs that break no rule.
//! Used by: `vlt_host::machine`, `vlt_run_laws::host` and the command `host`.
#![tactic(auto)]

ghost use Rattle.vlt_core.specs.Core.{Program};
ghost use Rattle.vlt_core.specs.Kinded.{IsKinded};
ghost use Rattle.vlt_core.specs.Derives.{IsAccepted};
ghost use Rattle.vlt_core_laws.specs.States.{HasStates};
ghost use Rattle.vlt_sound.specs.Sizes.{HasSizes};
ghost use Rattle.vlt_sound.specs.Narrow.{HasNarrowHeads};
ghost use Rattle.vlt_host_laws.specs.Promise.{NeverGoesWrongForHosts, KeepsClauses, LeavesOnlyTheHosts};
ghost use Rattle.vlt_host_laws.specs.Calls.{TakesCalls};
ghost use Rattle.vlt_host_laws.specs.Results.{GivesResults};

/// Whatever a host calls, no run of an accepted program ends in a fault. Each call that comes back changes what the host holds as
/// the clause of its function says, and all calls leave only objects that the host has, and what is below those.
pub fn hosts_of_accepted_programs_go_right()
    ensures never { (p : Program) → IsKinded p → IsAccepted p → HasSizes p → HasStates p →
        HasNarrowHeads p → NeverGoesWrongForHosts p }
    ensures keeps { (p : Program) → IsKinded p → IsAccepted p → HasSizes p → HasStates p →
        HasNarrowHeads p → KeepsClauses p }
    ensures leaves { (p : Program) → IsKinded p → IsAccepted p → HasSizes p →
        HasStates p → HasNarrowHeads p → LeavesOnlyTheHosts p }
{}

/// The same of one call, wherever calls came to: what a machine may count on that a host calls.
pub fn accepted_programs_take_calls()
    ensures { (p : Program) → IsKinded p → IsAccepted p → HasSizes p → HasStates p →
        HasNarrowHeads p → TakesCalls p }
{}

/// A call that comes back gives a value just where its function's type says so: a number, or a reference to an object.
pub fn accepted_programs_give_results()
    ensures { (p : Program) → IsKinded p → IsAccepted p → HasSizes p → HasStates p →
        HasNarrowHeads p → GivesResults p }
{}
