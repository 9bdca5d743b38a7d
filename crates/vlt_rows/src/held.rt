//! Held maps take rows: they pass them.

use crate::sink::{RowError, RowSink, WideRow};
use vlt_core::Row;
use vlt_keyset::Held;

impl RowSink for Held {
    ghost use Rattle.vlt_rows.specs.Passing.{IsPassed, IsStopped};

    ghost takes = { λ r v w. IsPassed r v w };

    ghost stops = { λ r v e. IsStopped r v e };

    fn take(&mut self, row: Row) -> Result<(), RowError> {
        if !self.has(row.tok) {
            return Err(RowError::Unfit);
        }
        match self.step(row) {
            Ok(()) => Ok(()),
            Err(fault) => Err(RowError::Refused(fault)),
        }
    }

    fn take_wide(&mut self, row: WideRow) -> Result<(), RowError> {
        match row.with_set() {
            Some(row) => self.take(row),
            None => Err(RowError::Unfit),
        }
    }
}
