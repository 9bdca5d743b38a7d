//! Why a walk halts.

ghost use Rattle.std.specs.Prelude.{◌≡◌};
ghost use Rattle.vlt_flow_maps.specs.declared.errors.Halt.TheVariants as halt;

use thiserror::Error;
use vlt_keyset::{JoinFault, TokenFault};

/// Why a walk halts on its way through a body.
#[derive(Clone, Copy, Debug, PartialEq, Eq, Error)]
pub enum Halt {
    /// A row or a join is refused.
    #[error("a row or a join is refused")]
    Refused,
    #[error("there was no memory for a map")]
    Memory,
}

impl From<vlt_base::Memory> for Halt {
    ghost from_gives = { λ _ e. e ≡ halt.Memory };

    fn from(_: vlt_base::Memory) -> Halt {
        Halt::Memory
    }
}

impl From<TokenFault> for Halt {
    ghost from_gives = { λ _ e. e ≡ halt.Refused };

    fn from(_: TokenFault) -> Halt {
        Halt::Refused
    }
}

impl From<JoinFault> for Halt {
    ghost from_gives = { λ _ e. e ≡ halt.Refused };

    fn from(_: JoinFault) -> Halt {
        Halt::Refused
    }
}
