//! Where a run ends: a core program in; the places of the functions under way at the end of its run out, and no code.
//! Read `specs/Machine.antt` (after_move), `specs/Frames.antt` (frames_in, IsTrace) and `specs/Laws.antt`.
//! Used by: `vaultq trace` and `vaultq where`.
#![tactic(auto)]

ghost use Rattle.vlt_trace_meaning.specs.Laws.{PlacesChangeNothing, EachComes, ComesToOne, ComesWhereItLeads, TraceIsTheRun};

/// Without places it is the machine of the definition of runs.
pub fn places_change_nothing()
    ensures { PlacesChangeNothing }
{}

/// A run is over in just one configuration, and its step is the run's.
pub fn frames_are_the_runs()
    ensures exists { EachComes }
    ensures one { ComesToOne }
    ensures leads { ComesWhereItLeads }
    ensures runs { TraceIsTheRun }
{
    vlt_meaning_laws::machine_is_the_run();
}
