//! What takes rows.

ghost use Rattle.std.specs.Prelude.{◌≡◌, None, OnOk, IfErr, IfSome};
ghost use Rattle.vlt_core.specs.HeldView.{row_of};
ghost use Rattle.vlt_core.specs.Maps.{Row};
ghost use Rattle.vlt_rows.specs.declared.sink.RowError.TheVariants.{Memory};
ghost use Rattle.vlt_rows.specs.Wide.{wide_row_of};
ghost use Rattle.vlt_rows.specs.Unfit.{IsWide};

use crate::states::States;
use std::alloc::{AllocError, AllocFailed};
use thiserror::Error;
use vlt_core::{After, Row, Tok, Wanted};
use vlt_keyset::TokenFault;

/// A row one of whose sides names states as the program says them, whether or not there is a set of them.
#[derive(Clone, Copy)]
pub enum WideRow {
    /// These are wanted.
    Wants {
        tok: Tok,
        states: States,
        after: After,
    },
    /// These are left.
    Leaves {
        tok: Tok,
        wanted: Wanted,
        states: States,
    },
}

impl WideRow {
    /// The row of the set of these states, if there is one.
    pub fn with_set(self) -> Option<Row>
        ensures row { IfSome result (λ r. row_of r ≡ wide_row_of self) }
        ensures wide { result ≡ None → IsWide (wide_row_of self) }
    {
        match self {
            WideRow::Wants { tok, states, after } => {
                let set = states.set()?;
                Some(Row {
                    tok,
                    wanted: Wanted::In(set),
                    after,
                })
            }
            WideRow::Leaves {
                tok,
                wanted,
                states,
            } => {
                let set = states.set()?;
                Some(Row {
                    tok,
                    wanted,
                    after: After::Set(set),
                })
            }
        }
    }
}

/// Why rows weren't all taken.
#[derive(Clone, Copy, Debug, PartialEq, Eq, Error)]
pub enum RowError {
    /// A row isn't passed.
    #[error("a row isn't passed")]
    Refused(TokenFault),
    /// A row names states of which there is no set, or there are more things than numbers.
    #[error("states have no set, or something no number")]
    Unfit,
    #[error("there was no memory")]
    Memory,
}

impl From<AllocError> for RowError {
    ghost from_gives = { λ _ e. e ≡ Memory };

    fn from(_: AllocError) -> RowError {
        RowError::Memory
    }
}

impl<T: Drop> From<AllocFailed<T>> for RowError {
    ghost from_gives = { λ _ e. e ≡ Memory };

    fn from(_: AllocFailed<T>) -> RowError {
        RowError::Memory
    }
}

impl From<vlt_base::Memory> for RowError {
    ghost from_gives = { λ _ e. e ≡ Memory };

    fn from(_: vlt_base::Memory) -> RowError {
        RowError::Memory
    }
}

/// What takes the rows of statements, one after another: a held map passes them, a list keeps them.
pub trait RowSink {
    ghost use Rattle.vlt_rows.specs.declared.sink.RowError.{RowError};

    /// The row is taken: the value before and after it.
    ghost takes: { Row → Self → Self → Type 0 };
    /// The row isn't taken.
    ghost stops: { Row → Self → RowError → Type 0 };

    fn take(&mut self, row: Row) -> Result<(), RowError>
        ensures taken { OnOk result (takes (row_of row) self.old self.new) }
        ensures stopped { IfErr result (stops (row_of row) self.old) };

    fn take_wide(&mut self, row: WideRow) -> Result<(), RowError>
        ensures taken { OnOk result (takes (wide_row_of row) self.old self.new) }
        ensures stopped { IfErr result (stops (wide_row_of row) self.old) };
}
