//! Ways through rows.

ghost use Rattle.std.specs.Prelude.{◌≡◌, ◌↔◌, ◌⊎◌, ◌||◌, map, IsTrue, IfOk, OnOk};
ghost use Rattle.vlt_core.specs.Maps as maps;
ghost use Rattle.vlt_core.specs.Found.{One};
ghost use Rattle.vlt_core.specs.Witness.{RowMet};
ghost use Rattle.vlt_core.specs.View.{tok_of};
ghost use Rattle.vlt_core.specs.HeldView.{toks_of};
ghost use Rattle.vlt_rows.specs.FlowView.{rows_view};
ghost use Rattle.vlt_core_laws.specs.Sweep.{In, IsImage};
ghost use Rattle.vlt_faults.specs.Finding.Ones.{many_of};
ghost use Rattle.vlt_witness.specs.Ways.{row_end, IsWay, On, OnSeen, nothing_found};
ghost use Rattle.vlt_witness.specs.Search.{Walks, Sees, Passes};
ghost use Rattle.vlt_witness.specs.Aims.{rows_aimed, joins_aimed, RowsHere, HasNoRow};

use crate::aim::{Aim, is_met_at_row};
use crate::seen::{Seen, note};
use crate::ways::{Way, add};
use std::alloc::{AllocError, Global};
use vlt_base::{Items, either};
use vlt_core::{After, Row, Tok, Wanted};
use vlt_faults::{Ones, pass_row};

/// What rows leave, and whether the aim is met at one of them.
#[derive(Clone, Copy)]
struct Looked {
    ones: Ones,
    met: bool,
}

fn look(aim: Aim, at: u32, rows: &[Row], m: Ones) -> Looked
    ensures ones { IsImage (tok_of aim.tok) (rows_view rows.now) (many_of m) (many_of result.ones) }
    ensures met { IsTrue result.met ↔
        ((o : One) × In (many_of m) o ×
        RowMet (rows_aimed aim row_end) (joins_aimed aim row_end) (tok_of aim.tok) at
        (rows_view rows.now) o) }
{
    let mut ones = m;
    let mut met = false;
    for row in rows {
        met = either(met, is_met_at_row(aim, at, *row, ones));
        ones = pass_row(aim.tok, *row, ones);
    }
    Looked { ones, met }
}

/// Notes a way that comes to a row of these as it is to.
fn see_rows(
    alloc: Global,
    aim: Aim,
    at: u32,
    rows: &[Row],
    way: &Way,
    list: &mut Items<Seen>,
) -> Result<(), AllocError>
    ensures { OnOk result (Sees (RowsHere aim at (rows_view rows.now)) (IsWay way.now)
        (OnSeen list.old) (OnSeen list.new)) }
{
    if !look(aim, at, rows, way.ones).met {
        return Ok(());
    }
    let path = Items::from_slice(alloc, way.path.as_slice())?;
    note(
        list,
        Seen {
            from: way.from,
            join: None,
            path,
        },
    )
}

/// Takes a way through rows.
fn pass_way(
    alloc: Global,
    aim: Aim,
    at: u32,
    rows: &[Row],
    way: &Way,
    list: &mut Items<Way>,
) -> Result<(), AllocError>
    ensures { OnOk result (Walks (Passes (tok_of aim.tok) (rows_view rows.now)) (IsWay way.now)
        (On list.old) (On list.new)) }
{
    let ones = look(aim, at, rows, way.ones).ones;
    let path = Items::from_slice(alloc, way.path.as_slice())?;
    add(
        list,
        Way {
            from: way.from,
            ones,
            path,
        },
    )
}

fn pass_all(
    alloc: Global,
    aim: Aim,
    at: u32,
    rows: &[Row],
    ways: &[Way],
    met: &mut Items<Seen>,
) -> Result<Items<Way>, AllocError>
    ensures walks { IfOk result (λ r.
        Walks (Passes (tok_of aim.tok) (rows_view rows.now)) (On ways.now) nothing_found (On r)) }
    ensures sees { OnOk result (Sees (RowsHere aim at (rows_view rows.now)) (On ways.now)
        (OnSeen met.old) (OnSeen met.new)) }
{
    let mut list = Items::new(alloc);
    for way in ways {
        see_rows(alloc, aim, at, rows, way, met)?;
        pass_way(alloc, aim, at, rows, way, &mut list)?;
    }
    Ok(list)
}

/// Whether a row is one of the token.
fn has_rows_of(tok: Tok, rows: &[Row]) -> bool
    ensures { IsTrue result ⊎ HasNoRow (tok_of tok) (rows_view rows.now) }
{
    for row in rows {
        if tok.is_same(row.tok) {
            return true;
        }
    }
    false
}

/// Takes ways through rows; those of other tokens stop and change nothing.
pub fn pass(
    alloc: Global,
    aim: Aim,
    at: u32,
    rows: &[Row],
    ways: Items<Way>,
    met: &mut Items<Seen>,
) -> Result<Items<Way>, AllocError>
    ensures walks { IfOk result (λ r.
        Walks (Passes (tok_of aim.tok) (rows_view rows.now)) (On ways) nothing_found (On r)) }
    ensures sees { OnOk result (Sees (RowsHere aim at (rows_view rows.now)) (On ways)
        (OnSeen met.old) (OnSeen met.new)) }
{
    if has_rows_of(aim.tok, rows) {
        pass_all(alloc, aim, at, rows, ways.as_slice(), met)
    } else {
        Ok(ways)
    }
}

/// The rows that want tokens away.
pub fn gone_rows(alloc: Global, toks: &[Tok]) -> Result<Items<Row>, AllocError>
    ensures { IfOk result (λ rs. rows_view rs ≡ map maps.away_row (toks_of toks.now)) }
{
    let mut rows = Items::new(alloc);
    for tok in toks {
        rows.push(Row {
            tok: *tok,
            wanted: Wanted::Absent,
            after: After::Absent,
        })?;
    }
    Ok(rows)
}
