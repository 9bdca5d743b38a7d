//! Why a C program isn't known to be the lowering of a core program.

ghost use Rattle.std.specs.Prelude.{◌≡◌};

use thiserror::Error;
use vlt_base::Memory as NoMemory;

/// Why a C program isn't known to be the lowering of a core program.
#[derive(Clone, Copy, Debug, PartialEq, Eq, Error)]
pub enum MatchError {
    /// It isn't the lowering. The statement is the first one whose lowering isn't there, counted from 0 over the whole core
    /// program; where the programs first differ outside all statements, it is the number of all statements.
    #[error("the C program isn't the lowering, from statement {statement} on")]
    Differs { statement: u64 },
    #[error("there is no memory for the lowering")]
    Memory,
}

impl From<NoMemory> for MatchError {
    ghost use Rattle.c_match.specs.declared.error.MatchError.TheVariants.{Memory};

    ghost from_gives = { λ _ e. e ≡ Memory };

    fn from(_: NoMemory) -> MatchError {
        MatchError::Memory
    }
}
