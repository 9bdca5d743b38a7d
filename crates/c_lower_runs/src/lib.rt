//! Laws on the lowering of whole programs: nothing goes in and nothing comes out.
//! Read `specs/Laws.antt` first, then what it names: `Lowerable`, the conditions, and `SameRuns`, what is the same.
//! Used by: `c_lower_accepted::accepted_programs_are_lowered_rightly`.
//! Its parts: `forms` has the laws on statements, `texts` that a lowered program is a C program.
#![tactic(auto)]

ghost use Rattle.c_lower_runs.specs.Laws.{LoweringIsRight, LoweredIsSame, LoweredIsDefined};

mod forms;
mod texts;

pub use forms::statements_are_lowered_rightly;
pub use texts::lowered_programs_are_c_programs;

/// A run of a program ends in a fault, or that of its C program has the same outcome, event text and fuel: whatever the
/// bounds, the input and the answers. So where it doesn't end in a fault, that of its C program is the same, and breaks no
/// rule of C.
pub fn programs_are_lowered_rightly()
    ensures right { LoweringIsRight }
    ensures same { LoweredIsSame }
    ensures defined { LoweredIsDefined }
{}
