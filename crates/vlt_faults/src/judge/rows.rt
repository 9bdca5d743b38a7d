//! Rows and joins: whether they are faulty for a token.

ghost use Rattle.std.specs.Prelude.{◌≡◌, ◌<◌, ◌+◌, ◌^◌, length, map};
ghost use Rattle.vlt_core.specs.View.{tok_of};
ghost use Rattle.vlt_core.specs.HeldView.{row_of, toks_of};
ghost use Rattle.vlt_core.specs.Maps as maps;
ghost use Rattle.vlt_rows.specs.FlowView.{rows_view};
ghost use Rattle.vlt_core_laws.specs.Sweep.{In, IsImage};
ghost use Rattle.vlt_faults.specs.Finding.Ones.{many_of};
ghost use Rattle.vlt_faults.specs.Judge.Blames.{class_of, FirstOfRow, FirstOfRows, FirstOfJoin};

use crate::finding::{Ones, pass_row};
use crate::judge::blame::{Blame, Class, earlier};
use crate::judge::telling::{is_mixed, is_unwanted, present_status, status_in};
use vlt_core::{After, FaultKind, Row, Tok, Wanted};

/// The first fault of rows, and what they leave.
#[derive(Clone, Copy)]
pub struct Passed {
    pub first: Option<Blame>,
    pub ones: Ones,
}

fn judge_row(tok: Tok, row: Row, at: u32, number: usize, m: Ones) -> Option<Blame>
    ensures { FirstOfRow (tok_of tok) at number (row_of row) (In (many_of m)) result }
{
    if tok.is_same(row.tok) && is_unwanted(row.wanted, m) {
        Some(Blame {
            at,
            class: Class::Row,
            number,
            tok,
            kind: FaultKind::Row {
                found: status_in(m),
                wanted: row.wanted,
            },
        })
    } else {
        None
    }
}

pub fn judge_rows(tok: Tok, rows: &[Row], at: u32, number: usize, m: Ones) -> Passed
    requires { number + length rows.now < 2 ^ 63 }
    ensures first { FirstOfRows (tok_of tok) at number (rows_view rows.now)
        (In (many_of m)) result.first }
    ensures ones { IsImage (tok_of tok) (rows_view rows.now) (many_of m) (many_of result.ones) }
{
    let mut first = None;
    let mut cur = m;
    let mut n = number;
    for row in rows {
        first = earlier(first, judge_row(tok, *row, at, n, cur));
        cur = pass_row(tok, *row, cur);
        n += 1;
    }
    Passed { first, ones: cur }
}

/// The row that wants the token away.
fn gone(tok: Tok) -> Row
    ensures { row_of result ≡ maps.away_row (tok_of tok) }
{
    Row {
        tok,
        wanted: Wanted::Absent,
        after: After::Absent,
    }
}

pub fn judge_gone(tok: Tok, toks: &[Tok], at: u32, number: usize, m: Ones) -> Passed
    requires { number + length toks.now < 2 ^ 63 }
    ensures first { FirstOfRows (tok_of tok) at number (map maps.away_row (toks_of toks.now))
        (In (many_of m)) result.first }
    ensures ones { IsImage (tok_of tok) (map maps.away_row (toks_of toks.now)) (many_of m)
        (many_of result.ones) }
{
    let mut first = None;
    let mut cur = m;
    let mut n = number;
    for t in toks {
        let row = gone(*t);
        first = earlier(first, judge_row(tok, row, at, n, cur));
        cur = pass_row(tok, row, cur);
        n += 1;
    }
    Passed { first, ones: cur }
}

pub fn judge_join(tok: Tok, at: u32, class: Class, number: usize, m: Ones) -> Option<Blame>
    ensures { FirstOfJoin (tok_of tok) (record
        { at = at; class = class_of class; number = number }) (In (many_of m)) result }
{
    if is_mixed(m) {
        Some(Blame {
            at,
            class,
            number,
            tok,
            kind: FaultKind::Join {
                present: present_status(m),
            },
        })
    } else {
        None
    }
}
