//! Verdicts: what a tree is as a program, and the laws that a text has one verdict.
//! Read `specs/Verdicts.antt` first.
//! Used by: `vlt_judge` and `vlt_view_verdict`, which find verdicts, and the replies that show them.
#![tactic(auto)]

ghost use Rattle.vlt_verdict.specs.Laws.{HasOneVerdict, HasSomeVerdict, ProgramsHaveOneVerdict, ProgramsHaveSomeVerdict};

use thiserror::Error;
use vlt_check::accepted_has_no_fault;
use vlt_check_laws::programs_are_judged;
use vlt_core::{FlowFault, Program};
use vlt_core_laws::there_is_one_first_fault;
use vlt_fit_laws::programs_are_fit;

/// What a tree is as a program.
#[derive(Drop)]
pub enum Verdict {
    /// A rule on names and types refuses it; the place is a byte of the text, counted from 0.
    Broken { rule: u8, at: u32 },
    /// A function has more variables or keys than the limit of this number allows.
    Exceeded(u8),
    /// A function breaks the rules on keys; this is the first fault.
    Faulty(Program, FlowFault),
    /// It follows all rules.
    Accepted(Program),
}

/// Why a tree has no verdict.
#[derive(Clone, Copy, Debug, PartialEq, Eq, Error)]
pub enum JudgeError {
    /// A body of its program is unfit for the check: a row of it names states of which there is no set, it has 2^62
    /// statements or more, or it is refused and something in it has no number.
    #[error("a body of the program is unfit for the check")]
    Unfit,
    #[error("there was no memory")]
    Memory,
}

/// Whatever gives a program that the laws on checks are about, it is of one verdict.
pub fn programs_have_one_verdict()
    ensures { ProgramsHaveOneVerdict }
{
    accepted_has_no_fault();
    there_is_one_first_fault();
}

/// A tree that a text has is of one verdict.
pub fn a_tree_has_one_verdict()
    ensures { HasOneVerdict }
{
    programs_have_one_verdict();
    programs_are_fit();
}

/// It can't be that what gives such a program is of no verdict.
pub fn programs_have_some_verdict()
    ensures { ProgramsHaveSomeVerdict }
{
    programs_are_judged();
}

/// It can't be that a tree that a text has is of no verdict.
pub fn a_tree_has_some_verdict()
    ensures { HasSomeVerdict }
{
    programs_are_fit();
    programs_have_some_verdict();
}
