//! A core program and a C program in; whether the C program is the lowering of the core program, and else the first core
//! statement whose lowering isn't there, out.
//! Read `c_lower/specs/Lowering.antt` first, then `specs/Pieces.antt`, `Owned`, `Apart` and `Refusals`.
//! Used by: the command `verify`.
#![tactic(auto)]

ghost use Rattle.c_match.specs.Laws.{PiecesSayAll, OwnedAreLowered, CountsAreSizes, LoweringIsNowhereApart, ApartAtOne, OthersAreApart};

mod apart;
mod error;
mod lowering;
mod matching;
mod owners;
mod pieces;
mod same;

pub use error::MatchError;
pub use matching::matches;

/// C programs with the same pieces are the same.
pub fn pieces_say_all()
    ensures { PiecesSayAll }
{}

/// The owned pieces are those of the lowering.
pub fn owned_are_lowered()
    ensures { OwnedAreLowered }
{}

/// Statements are counted as those of flows are.
pub fn counts_are_sizes()
    ensures { CountsAreSizes }
{}

/// The lowering itself differs at no statement, any other program at one.
pub fn apart_at_one()
    ensures lowering { LoweringIsNowhereApart }
    ensures one { ApartAtOne }
    ensures others { OthersAreApart }
{}
