//! How a world of the source stands in C, and laws on the code of operands: nothing goes in and nothing comes out.
//! Read `specs/Worlds.antt` first, then `Shapes`, `Frames` and `Same`.
//! Used by: `c_lower_runs::programs_are_lowered_rightly`.
//! Its parts: `operators` has the laws on expressions, `naming` those on references in scope.
#![tactic(auto)]

ghost use Rattle.c_lower_worlds.specs.Laws.{NumbersAreLowered, OperandsAreLowered};

mod naming;
mod operators;

pub use naming::references_are_what_their_keys_name;
pub use operators::{
    binary_operators_are_lowered_rightly, expressions_are_lowered_rightly,
    numbers_stand_in_their_slots, prefix_operators_are_lowered_rightly,
};

/// The code of an expression gives the number that the source finds, or traps as the source does; and that of an operand leaves
/// its value in its atoms. Both of what breaks no rule, wherever a run has come to.
pub fn operands_are_lowered_rightly()
    ensures numbers { NumbersAreLowered }
    ensures operands { OperandsAreLowered }
{}
