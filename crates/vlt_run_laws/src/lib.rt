//! Laws on what a run of an accepted program comes to: nothing goes in and nothing comes out.
//! Read `vlt_interp/specs/Tasks/Own.antt` and `vlt_interp/specs/Calls/Called.antt` first, then `specs/Named.antt`, `Known.antt`, `Loose.antt`.
//! Used by: the machine, which fills variables, looks up keys and calls externals without a test.
//! Its part `host` has the same of runs that begin with a host's call.
#![tactic(auto)]

ghost use Rattle.vlt_core.specs.Core.{Program, Form, Func};
ghost use Rattle.vlt_core.specs.Kinded.{IsKinded};
ghost use Rattle.vlt_interp.specs.Tasks.Own.{HasOwn};
ghost use Rattle.vlt_run_laws.specs.Blank.{HasBlankExternals, HasFewVars};
ghost use Rattle.std.specs.Prelude.{ℕ};
ghost use Rattle.vlt_core.specs.Derives.{IsAccepted};
ghost use Rattle.vlt_core_laws.specs.States.{HasStates};
ghost use Rattle.vlt_meaning.specs.World.{Frame, World};
ghost use Rattle.vlt_meaning_laws.specs.Machine.Reached.{NamesItsKeys};
ghost use Rattle.vlt_sound.specs.Sizes.{HasSizes};
ghost use Rattle.vlt_sound.specs.Narrow.{HasNarrowHeads};
ghost use Rattle.vlt_run_laws.specs.Known.{IsKnown, KnowsItsSteps};
ghost use Rattle.vlt_run_laws.specs.Named.{NamesScope};
ghost use Rattle.vlt_run_laws.specs.Loose.{MovesLooseObjects};
ghost use Rattle.vlt_interp.specs.Calls.Known.{KnowsItsCalls};

mod host;

pub use host::{
    accepted_programs_are_callable, accepted_programs_know_started_calls,
    accepted_programs_know_started_steps,
};

/// The statements of a program that breaks no rule on names and types name variables and keys of their own functions.
pub fn kinded_programs_name_their_own()
    ensures { (p : Program) → IsKinded p → HasFewVars p → HasBlankExternals p → HasOwn p }
{}

/// Each statement that a run of an accepted program comes to is known.
pub fn accepted_programs_know_their_steps()
    ensures { (p : Program) → IsKinded p → IsAccepted p → HasSizes p → HasStates p →
        HasNarrowHeads p → KnowsItsSteps p }
{}

/// Where a statement is known, what is in scope names objects.
pub fn known_steps_name_objects()
    ensures { (p : Program) (f : Func) (form : Form) (frame : Frame) (w : World) →
        (s : IsKnown p f form frame w) → NamesScope f s.ids frame }
{}

/// Where a run of an accepted program calls a function, the keys that the call lists name objects.
pub fn accepted_programs_name_their_keys()
    ensures { (p : Program) → IsKinded p → IsAccepted p → HasSizes p → HasStates p →
        HasNarrowHeads p → NamesItsKeys p }
{}

/// Where a run of an accepted program calls an external, the call lists the keys that it needs, these name objects,
/// and no argument is of a variant.
pub fn accepted_programs_know_their_calls()
    ensures { (p : Program) → IsKinded p → IsAccepted p → HasSizes p → HasStates p →
        HasNarrowHeads p → KnowsItsCalls p }
{}

/// Where a run of an accepted program comes to a statement, each variable whose value it moves has a value, and each object
/// that the value owns is loose, in a state that the variable's type allows.
pub fn accepted_programs_move_loose_objects()
    ensures { (p : Program) → IsKinded p → IsAccepted p → HasSizes p → HasStates p →
        HasNarrowHeads p → MovesLooseObjects p }
{}
