//! Rows, one after another.

ghost use Rattle.std.specs.Prelude.{map};
ghost use Rattle.vlt_core.specs.View.{tok_of};
ghost use Rattle.vlt_core.specs.HeldView.{row_of, toks_of};
ghost use Rattle.vlt_rows.specs.FlowView.{rows_view};
ghost use Rattle.vlt_core.specs.Maps.{away_row};
ghost use Rattle.vlt_core_laws.specs.Sweep.{IsImage};
ghost use Rattle.vlt_faults.specs.Finding.Ones.{many_of};
ghost use Rattle.vlt_faults.specs.Finding.Passes.{IsMoved};

use crate::finding::ones::Ones;
use crate::finding::singles::moved;
use vlt_core::{After, Row, Tok, Wanted};

/// What a row leaves of a token of which these are found.
pub fn pass_row(tok: Tok, row: Row, m: Ones) -> Ones
    ensures { IsMoved (tok_of tok) (row_of row) (many_of m) (many_of result) }
{
    if tok.is_same(row.tok) {
        moved(row.wanted, row.after, m)
    } else {
        m
    }
}

pub fn pass_rows(tok: Tok, rows: &[Row], m: Ones) -> Ones
    ensures { IsImage (tok_of tok) (rows_view rows.now) (many_of m) (many_of result) }
{
    let mut cur = m;
    for row in rows {
        cur = pass_row(tok, *row, cur);
    }
    cur
}

pub fn pass_gone(tok: Tok, toks: &[Tok], m: Ones) -> Ones
    ensures { IsImage (tok_of tok) (map away_row (toks_of toks.now)) (many_of m) (many_of result) }
{
    let mut cur = m;
    for t in toks {
        cur = pass_row(
            tok,
            Row {
                tok: *t,
                wanted: Wanted::Absent,
                after: After::Absent,
            },
            cur,
        );
    }
    cur
}
