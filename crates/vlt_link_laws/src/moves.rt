//! Laws of elaboration in a file that knows more names: nothing goes in and nothing comes out.
//! Read `specs/Moves/Sees.antt` first, then `Exprs`, `Apt` and `Walks`; `Joins` serves the laws on links.
//! Used by: the laws on modules. What isn't refused in a view isn't refused in the joined program, and becomes the same.

ghost use Rattle.vlt_link_laws.specs.Moves.Exprs.{ExprsMove, OperandsMove};
ghost use Rattle.vlt_link_laws.specs.Moves.Walks.{WalksMove};

/// An expression that isn't refused in a view isn't refused in the joined program, and becomes the same.
pub fn exprs_move()
    ensures { ExprsMove }
{}

/// So does what is handed over.
pub fn operands_move()
    ensures { OperandsMove }
{}

/// So do the statements of a body, where they bind no name that the joined program has as its own.
pub fn walks_move()
    ensures { WalksMove }
{}
