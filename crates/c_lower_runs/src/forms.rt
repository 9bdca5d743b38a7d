//! Laws on the lowering of statements: nothing goes in and nothing comes out.
//! Read `c_lower_worlds/specs/SameStatements.antt` first, then `specs/Forms/Laws.antt`.
//! Used by: `c_lower_runs::programs_are_lowered_rightly`.

ghost use Rattle.c_lower_runs.specs.Forms.Laws.{SimpleStatementsAreLowered, SwitchesAreLowered};
ghost use Rattle.c_lower_runs.specs.Forms.Laws.{ReturnsAreLowered};

/// The code of a statement does what the statement does, where that isn't a fault: of each statement without blocks, of a
/// switch whose arms' code does so, and of a return.
pub fn statements_are_lowered_rightly()
    ensures simple { SimpleStatementsAreLowered }
    ensures switches { SwitchesAreLowered }
    ensures returned { ReturnsAreLowered }
{}
