//! How much a body has: statements, rows and joins, and the tokens that its rows name.

ghost use Rattle.std.specs.Prelude.{◌≡◌, ◌+◌, max, false, length, map};
ghost use Rattle.vlt_core.specs.Maps as maps;
ghost use Rattle.vlt_core.specs.Flow.{size, size_block, size_stmts, size_arms};
ghost use Rattle.vlt_core.specs.Faults.{spots, spots_block, spots_stmts, spots_arms};
ghost use Rattle.vlt_core.specs.View.{tok_of};
ghost use Rattle.vlt_core.specs.HeldView.{toks_of};
ghost use Rattle.vlt_rows.specs.FlowView.{flow_view, block_view, stmts_view, arms_view, rows_view};
ghost use Rattle.vlt_faults.specs.Judge.Extents.{IsCount, IsExtent, IsBoth, Avoids, AvoidsRows, AvoidsBlock, AvoidsStmts, AvoidsArms};

use vlt_core::{Row, Tok};
use vlt_rows::{Flow, FlowArm, FlowBlock, FlowStmt};

/// Numbers of statements, and of rows and joins, where these are below 2^62; the tokens named have numbers below `keys`
/// and `vars`.
#[derive(Clone, Copy)]
pub struct Extent {
    pub stmts: usize,
    pub spots: usize,
    pub keys: usize,
    pub vars: usize,
}

fn only(stmts: usize, spots: usize) -> Extent
    ensures { IsExtent stmts spots (λ t. Unit {0}) result }
{
    Extent {
        stmts,
        spots,
        keys: 0,
        vars: 0,
    }
}

pub fn larger(a: usize, b: usize) -> usize
    ensures { result ≡ max a b }
{
    if a < b { b } else { a }
}

/// How many together, as far as counts go.
fn total(a: usize, b: usize) -> usize
    ensures { IsCount result (a + b) }
{
    a.saturating_add(b)
}

/// Of two parts together.
fn both(a: Extent, b: Extent) -> Extent
    ensures { IsBoth a b result }
{
    Extent {
        stmts: total(a.stmts, b.stmts),
        spots: total(a.spots, b.spots),
        keys: larger(a.keys, b.keys),
        vars: larger(a.vars, b.vars),
    }
}

fn extent_of_tok(tok: Tok) -> Extent
    ensures { IsExtent 0 1 (λ t. maps.is_tok t (tok_of tok) ≡ false) result }
{
    match tok {
        Tok::Key(k) => Extent {
            stmts: 0,
            spots: 1,
            keys: k.0 as usize + 1,
            vars: 0,
        },
        Tok::Var(v) => Extent {
            stmts: 0,
            spots: 1,
            keys: 0,
            vars: v.0 as usize + 1,
        },
    }
}

fn extent_of_rows(rows: &[Row]) -> Extent
    ensures { IsExtent 0 (length rows.now) (λ t. AvoidsRows t (rows_view rows.now)) result }
{
    let mut sum = only(0, 0);
    for row in rows {
        let own = extent_of_tok(row.tok);
        sum = both(sum, own);
    }
    sum
}

fn extent_of_toks(toks: &[Tok]) -> Extent
    ensures { IsExtent 0 (length toks.now)
        (λ t. AvoidsRows t (map maps.away_row (toks_of toks.now))) result }
{
    let mut sum = only(0, 0);
    for tok in toks {
        let own = extent_of_tok(*tok);
        sum = both(sum, own);
    }
    sum
}

/// Of a statement with so many joins and these rows.
fn with_rows(joins: usize, rows: &[Row]) -> Extent
    ensures { IsExtent 1 (joins + length rows.now)
        (λ t. AvoidsRows t (rows_view rows.now)) result }
{
    let own = extent_of_rows(rows);
    both(only(1, joins), own)
}

#[cycle(extent)]
fn extent_of_form(form: &Flow) -> Extent
    ensures { IsExtent (size (flow_view form.now)) (spots (flow_view form.now))
        (λ t. Avoids t (flow_view form.now)) result }
{
    match form {
        Flow::Step { rows } => with_rows(0, rows.as_slice()),
        Flow::If {
            rows,
            then_block,
            else_block,
        } => {
            let own = with_rows(1, rows.as_slice());
            let first = extent_of_block(then_block);
            let second = extent_of_block(else_block);
            let ways = both(first, second);
            both(own, ways)
        }
        Flow::While { rows, body } => {
            let own = with_rows(2, rows.as_slice());
            let inside = extent_of_block(body);
            both(own, inside)
        }
        Flow::Switch { rows, arms, end } => {
            let own = with_rows(1, rows.as_slice());
            let inside = extent_of_arms(arms.as_slice());
            both(own, inside)
        }
        Flow::Scope { body } => {
            let inside = extent_of_block(body);
            both(only(1, 0), inside)
        }
        Flow::Focus { rows, body, after } => {
            let own = with_rows(0, rows.as_slice());
            let inside = extent_of_block(body);
            let rest = extent_of_rows(after.as_slice());
            let following = both(inside, rest);
            both(own, following)
        }
        Flow::Return { rows } => with_rows(0, rows.as_slice()),
        Flow::Jump { continues, left } => {
            let own = extent_of_toks(left.as_slice());
            both(only(1, 0), own)
        }
    }
}

#[cycle(extent)]
pub fn extent_of_block(block: &FlowBlock) -> Extent
    ensures { IsExtent (size_block (block_view block.now))
        (spots_block (block_view block.now)) (λ t. AvoidsBlock t (block_view block.now)) result }
{
    let inside = extent_of_list(block.stmts.as_slice());
    let bound = extent_of_toks(block.bound.as_slice());
    both(inside, bound)
}

#[cycle(extent)]
fn extent_of_list(stmts: &[FlowStmt]) -> Extent
    ensures { IsExtent (size_stmts (stmts_view stmts.now))
        (spots_stmts (stmts_view stmts.now)) (λ t. AvoidsStmts t (stmts_view stmts.now)) result }
{
    let mut sum = only(0, 0);
    for s in stmts {
        let own = extent_of_form(&s.flow);
        sum = both(sum, own);
    }
    sum
}

#[cycle(extent)]
fn extent_of_arms(arms: &[FlowArm]) -> Extent
    ensures { IsExtent (size_arms (arms_view arms.now))
        (spots_arms (arms_view arms.now)) (λ t. AvoidsArms t (arms_view arms.now)) result }
{
    let mut sum = only(0, 0);
    for arm in arms {
        let rows = extent_of_rows(arm.rows.as_slice());
        let inside = extent_of_block(&arm.body);
        let own = both(rows, inside);
        sum = both(sum, own);
    }
    sum
}
