//! The law on whole runs: nothing goes in and nothing comes out.
//! Read `specs/Promise.antt` first: what is promised of programs that break no rule.
//! Used by: the promise of `check`.
#![tactic(auto)]

mod externs;
mod heads;
mod typed;

ghost use Rattle.vlt_core.specs.Core.{Program};
ghost use Rattle.vlt_core.specs.Kinded.{IsKinded};
ghost use Rattle.vlt_core.specs.Derives.{IsAccepted};
ghost use Rattle.vlt_core_laws.specs.States.{HasStates};
ghost use Rattle.vlt_sound.specs.Sizes.{HasSizes};
ghost use Rattle.vlt_sound.specs.Promise.{NeverGoesWrong, LeavesOnlyItsClause};
ghost use Rattle.vlt_sound.specs.Narrow.{HasNarrowHeads};

pub use externs::kinded_externals_are_known;
pub use heads::kinded_functions_are_known;
pub use typed::kinded_programs_are_typed;

/// No run of an accepted program ends in a fault, and one that is done leaves only what its clause or
/// the host has: whatever the bounds, the input and the answers.
pub fn accepted_programs_go_right()
    ensures never { (p : Program) → IsKinded p → IsAccepted p → HasSizes p → HasStates p →
        HasNarrowHeads p → NeverGoesWrong p }
    ensures leaves { (p : Program) → IsKinded p → IsAccepted p → HasSizes p →
        HasStates p → HasNarrowHeads p → LeavesOnlyItsClause p }
{}
