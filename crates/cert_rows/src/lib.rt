//! Values of JSON in, rows of a certificate out, and back. Definitions, and laws on them.
//! Read `specs/Parts.antt` first, then `Values`, `Expressions` and `Rows`.
//! Used by: `cert_format`, whose texts are arrays of these rows.
#![tactic(auto)]

ghost use Rattle.cert_rows.specs.Laws.{RowsAreExact, RowsAreReadAsWritten};

/// What is written for a row that fits is read as that row; a value that is read as a row was written for it, and
/// that row fits.
pub fn rows_are_read_as_written()
    ensures { RowsAreReadAsWritten }
{}

/// What is written for a row nests at most 5 deep, and all its numbers are whole.
pub fn rows_are_exact()
    ensures { RowsAreExact }
{}
