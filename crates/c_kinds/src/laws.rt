//! Laws of the kinds of C: nothing goes in and nothing comes out.
//! Read `specs/Laws.antt` first.
//! Used by: the reader, which reports where a text is refused, and what runs a text that is read.

ghost use Rattle.c_kinds.specs.Laws.{RefusalsAreWithin, UnrefusedProgramsCanRun};

/// A program that a text without a broken rule stands for can be run.
pub fn unrefused_programs_can_run()
    ensures { UnrefusedProgramsCanRun }
{}

/// What breaks a rule is told within the text.
pub fn refusals_are_within()
    ensures { RefusalsAreWithin }
{}
