//! Laws on the lowering of expressions: nothing goes in and nothing comes out.
//! Read `specs/Operators/Operators.antt` first, then `Codes`, `Expressions` and `Slots`.
//! Used by: `c_lower_runs::programs_are_lowered_rightly`.

ghost use Rattle.c_lower_worlds.specs.Operators.Operators.{AreRightBinary, AreRightUnary};
ghost use Rattle.c_lower_worlds.specs.Operators.Expressions.{AreRightExpressions};
ghost use Rattle.c_lower_worlds.specs.Operators.Slots.{LeavesStandThere};

/// The code of an operator between two values traps exactly where the operator does, and else sets the variable to
/// what the operator gives: of each binary operator but `&&` and `||`, for all numbers of 64 bits.
pub fn binary_operators_are_lowered_rightly()
    ensures { AreRightBinary }
{}

/// So does the code of `-` and `!` before one value.
pub fn prefix_operators_are_lowered_rightly()
    ensures { AreRightUnary }
{}

/// The code of an expression, however deep, gives the number that the source finds, or traps where the source does, and
/// changes no variable below its temps: where variables and fields that have a number in the source have it in C, the
/// numbers of operands are of 64 bits, and each operator has as many operands as it wants.
pub fn expressions_are_lowered_rightly()
    ensures { AreRightExpressions }
{}

/// Variables and fields whose numbers stand in their slots and cells keep them as long as no slot of a variable changes: so
/// no temp of an expression's code takes them away.
pub fn numbers_stand_in_their_slots()
    ensures { LeavesStandThere }
{}
