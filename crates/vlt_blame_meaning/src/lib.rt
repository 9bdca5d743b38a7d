//! What is told of a run that goes wrong: the move that can't be done in; what it wanted and what was there out, and no code.
//! Read `specs/Blame.antt` (held_map, task_rows, IsBlamed), then `specs/Samples.antt`.
//! Used by: `vaultq trace`.
#![tactic(auto)]

ghost use Rattle.vlt_blame_meaning.specs.Laws.{TellsOne};
ghost use Rattle.vlt_blame_meaning.specs.Samples.{IsAgain, IsKept, IsRaw, IsFilled};

/// Of rows and what is there just one thing is told.
pub fn one_is_told()
    ensures { TellsOne }
{}

/// Four runs that go wrong, with what is told of them. Proved by computing.
pub fn runs_go_wrong()
    ensures again { IsAgain }
    ensures kept { IsKept }
    ensures raw { IsRaw }
    ensures filled { IsFilled }
{}
