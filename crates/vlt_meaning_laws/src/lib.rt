//! Laws of runs: nothing goes in and nothing comes out.
//! Read `vlt_meaning/specs/Run.antt` and `Does.antt` first, then `specs/Laws.antt`; `machine` defines a run by a stack, on plain data.
//! Used by: the layers above, which see runs by these equations alone, and nothing of the bound.
#![tactic(auto)]

ghost use Rattle.vlt_meaning_laws.specs.BadAnswers.{IsBadUnlessKept, IsGoodWhereKept};
ghost use Rattle.vlt_meaning_laws.specs.Done.{DoneIsMainsEnd, DoneIsClean};
ghost use Rattle.vlt_meaning_laws.specs.Laws.{IsBoundless, GoesOn, TurnsAgain, IsRun, OnlyAdds, EndsStop};

mod machine;

pub use machine::{machine_is_the_run, stack_suffices};

/// The bound that a run's definition counts down doesn't matter.
pub fn runs_need_no_bound()
    ensures statements { IsBoundless }
    ensures lists { GoesOn }
    ensures loops { TurnsAgain }
    ensures programs { IsRun }
{}

/// No fuel is won, events are only added, input and answers are only taken, and objects keep their numbers and types.
pub fn runs_only_add()
    ensures { OnlyAdds }
{}

/// Statements of which the last one ends never come to what is after them.
pub fn ends_stop()
    ensures { EndsStop }
{}

/// A run that is done has come to main's end.
pub fn done_is_mains_end()
    ensures end { DoneIsMainsEnd }
    ensures clean { DoneIsClean }
{}

/// Where a call of an external comes to an answer, it ends the run in a bad answer, with that answer's position, exactly
/// where the answer doesn't keep the external's clause.
pub fn bad_answers_break_clauses()
    ensures bad { IsBadUnlessKept }
    ensures kept { IsGoodWhereKept }
{}
