//! Rows, one after another.

ghost use Rattle.std.specs.Prelude.{◌≡◌, ◌∷◌, [], map};
ghost use Rattle.vlt_core.specs.View.{tok_of};
ghost use Rattle.vlt_core.specs.HeldView.{row_of, wanted_of, toks_of};
ghost use Rattle.vlt_rows.specs.FlowView.{rows_view};
ghost use Rattle.vlt_core.specs.Maps.{row_passed, map_after, away_row};
ghost use Rattle.vlt_keyset.specs.Held.{map_of};
ghost use Rattle.cert_check.specs.Tests.{row_test, row_tests};
ghost use Rattle.cert_check.specs.Outcomes.{AreTested};

use crate::errors::{Refusal, Stop};
use vlt_core::{After, Row, Tok, Wanted};
use vlt_keyset::Held;

/// Passes one row of the statement.
fn pass_row(held: &mut Held, statement: usize, row: Row) -> Result<(), Stop>
    ensures { AreTested result
        (row_test statement (tok_of row.tok) (map_of held.old (tok_of row.tok))
        (wanted_of row.wanted) ∷ [])
        (λ u. map_of held.new ≡ row_passed (row_of row) (map_of held.old)) }
{
    held.reach(row.tok)?;
    match held.step(row) {
        Ok(()) => Ok(()),
        Err(fault) => Err(Stop::Refused(Refusal {
            statement,
            tok: fault.tok,
            found: fault.found,
            wanted: fault.wanted,
        })),
    }
}

pub fn pass_rows(held: &mut Held, statement: usize, rows: &[Row]) -> Result<(), Stop>
    ensures { AreTested result (row_tests statement (rows_view rows.now) (map_of held.old))
        (λ u. map_of held.new ≡ map_after (rows_view rows.now) (map_of held.old)) }
{
    for row in rows {
        pass_row(held, statement, *row)?;
    }
    Ok(())
}

/// The tokens of a scope that is left are to be away.
pub fn pass_gone(held: &mut Held, statement: usize, toks: &[Tok]) -> Result<(), Stop>
    ensures { AreTested result
        (row_tests statement (map away_row (toks_of toks.now)) (map_of held.old))
        (λ u. map_of held.new ≡ map_after (map away_row (toks_of toks.now)) (map_of held.old)) }
{
    for tok in toks {
        pass_row(
            held,
            statement,
            Row {
                tok: *tok,
                wanted: Wanted::Absent,
                after: After::Absent,
            },
        )?;
    }
    Ok(())
}
