//! Sweeps over a body.

ghost use Rattle.std.specs.Prelude.{◌≡◌, ◌+◌, ◌<◌, Some, None, length};
ghost use Rattle.vlt_core.specs.Flow.{size, size_block, size_stmts, size_arms};
ghost use Rattle.vlt_core.specs.View.{tok_of};
ghost use Rattle.vlt_rows.specs.FlowView.{flow_view, block_view, stmts_view, arms_view, rows_view};
ghost use Rattle.vlt_core_laws.specs.Sweep.{Swept, SweptBlock, SweptStmts, SweptArms, WayBy, TurnBy, Lands, In, IsReached, IsFoundIn};
ghost use Rattle.vlt_faults.specs.Finding.Ones.{many_of};
ghost use Rattle.vlt_faults.specs.Finding.Marks.{stock_of, Went, HasRoom, ForLoop};

use crate::finding::ones::Ones;
use crate::finding::pass::{pass_gone, pass_rows};
use crate::finding::singles::nothing;
use crate::finding::tables::Tables;
use vlt_core::{Row, Tok};
use vlt_rows::{Flow, FlowArm, FlowBlock, FlowStmt};

/// What comes out of a part, and the number of the statement after it.
#[derive(Clone, Copy)]
pub struct Came {
    pub ones: Ones,
    pub at: usize,
}

fn land(kept: &mut Tables, l: Option<usize>, continues: bool, m: Ones)
    requires long { length kept.old.following ≡ length kept.old.around }
    requires around { ForLoop l (length kept.old.around) }
    ensures lands { Lands l continues (many_of m) (stock_of kept.old) (stock_of kept.new) }
    ensures went { Went kept.old kept.new }
{
    match l {
        None => {}
        Some(l) => {
            if continues {
                kept.join_head(l, m);
            } else {
                kept.join_exit(l, m);
            }
        }
    }
}

#[cycle(sweep)]
fn sweep_form(kept: &mut Tables, tok: Tok, form: &Flow, l: Option<usize>, n: usize, m: Ones) -> Came
    requires room { HasRoom kept.old l (n + size (flow_view form.now)) }
    ensures swept { Swept (tok_of tok) (flow_view form.now) l n (stock_of kept.old) (many_of m)
        (stock_of kept.new) (many_of result.ones) }
    ensures went { Went kept.old kept.new }
    ensures at { result.at ≡ n + size (flow_view form.now) }
{
    match form {
        Flow::Step { rows } => Came {
            ones: pass_rows(tok, rows.as_slice(), m),
            at: n + 1,
        },
        Flow::If {
            rows,
            then_block,
            else_block,
        } => {
            let p = pass_rows(tok, rows.as_slice(), m);
            let first = sweep_way(kept, tok, then_block, l, n, n + 1, p);
            let second = sweep_way(kept, tok, else_block, l, n, first, p);
            Came {
                ones: kept.exit(n),
                at: second,
            }
        }
        Flow::While { rows, body } => {
            kept.join_head(n, m);
            let at = sweep_turn(kept, tok, body, rows.as_slice(), n);
            Came {
                ones: kept.exit(n),
                at,
            }
        }
        Flow::Switch { rows, arms, end } => {
            let p = pass_rows(tok, rows.as_slice(), m);
            let at = sweep_arms(kept, tok, arms.as_slice(), l, n, p);
            Came {
                ones: kept.exit(n),
                at,
            }
        }
        Flow::Scope { body } => sweep_block(kept, tok, body, l, n + 1, m),
        Flow::Focus { rows, body, after } => {
            let p = pass_rows(tok, rows.as_slice(), m);
            let inside = sweep_block(kept, tok, body, l, n + 1, p);
            Came {
                ones: pass_rows(tok, after.as_slice(), inside.ones),
                at: inside.at,
            }
        }
        Flow::Return { rows } => Came {
            ones: nothing(),
            at: n + 1,
        },
        Flow::Jump { continues, left } => {
            let p = pass_gone(tok, left.as_slice(), m);
            land(kept, l, *continues, p);
            Came {
                ones: nothing(),
                at: n + 1,
            }
        }
    }
}

/// A way of the choice c: what comes to its end is joined after the choice.
#[cycle(sweep)]
fn sweep_way(
    kept: &mut Tables,
    tok: Tok,
    body: &FlowBlock,
    l: Option<usize>,
    c: usize,
    n: usize,
    m: Ones,
) -> usize
    requires room { HasRoom kept.old l (n + size_block (block_view body.now)) }
    requires choice { c < length kept.old.around }
    ensures swept { WayBy (SweptBlock (tok_of tok) (block_view body.now) l n) c
        (stock_of kept.old) (many_of m) (stock_of kept.new) }
    ensures went { Went kept.old kept.new }
    ensures at { result ≡ n + size_block (block_view body.now) }
{
    let end = sweep_block(kept, tok, body, l, n, m);
    kept.join_exit(c, end.ones);
    end.at
}

/// A turn of the loop n.
#[cycle(sweep)]
fn sweep_turn(kept: &mut Tables, tok: Tok, body: &FlowBlock, rows: &[Row], n: usize) -> usize
    requires room { HasRoom kept.old None (n + 1 + size_block (block_view body.now)) }
    ensures swept { TurnBy (SweptBlock (tok_of tok) (block_view body.now) (Some n) (n + 1))
        (tok_of tok) (rows_view rows.now) n (stock_of kept.old) (stock_of kept.new) }
    ensures went { Went kept.old kept.new }
    ensures at { result ≡ n + 1 + size_block (block_view body.now) }
{
    let p = pass_rows(tok, rows, kept.head(n));
    kept.join_exit(n, p);
    let end = sweep_block(kept, tok, body, Some(n), n + 1, p);
    kept.join_head(n, end.ones);
    end.at
}

/// The arms of the choice c.
#[cycle(sweep)]
fn sweep_arms(
    kept: &mut Tables,
    tok: Tok,
    arms: &[FlowArm],
    l: Option<usize>,
    c: usize,
    m: Ones,
) -> usize
    requires room { HasRoom kept.old l (c + 1 + size_arms (arms_view arms.now)) }
    ensures swept { SweptArms (tok_of tok) (arms_view arms.now) l c (c + 1) (stock_of kept.old)
        (many_of m) (stock_of kept.new) }
    ensures went { Went kept.old kept.new }
    ensures at { result ≡ c + 1 + size_arms (arms_view arms.now) }
{
    let mut at = c + 1;
    for arm in arms {
        let p = pass_rows(tok, arm.rows.as_slice(), m);
        at = sweep_way(kept, tok, &arm.body, l, c, at, p);
    }
    at
}

#[cycle(sweep)]
pub fn sweep_block(
    kept: &mut Tables,
    tok: Tok,
    block: &FlowBlock,
    l: Option<usize>,
    n: usize,
    m: Ones,
) -> Came
    requires room { HasRoom kept.old l (n + size_block (block_view block.now)) }
    ensures swept { SweptBlock (tok_of tok) (block_view block.now) l n (stock_of kept.old)
        (many_of m) (stock_of kept.new) (many_of result.ones) }
    ensures went { Went kept.old kept.new }
    ensures at { result.at ≡ n + size_block (block_view block.now) }
{
    let end = sweep_list(kept, tok, block.stmts.as_slice(), l, n, m);
    Came {
        ones: pass_gone(tok, block.bound.as_slice(), end.ones),
        at: end.at,
    }
}

#[cycle(sweep)]
fn sweep_list(
    kept: &mut Tables,
    tok: Tok,
    stmts: &[FlowStmt],
    l: Option<usize>,
    n: usize,
    m: Ones,
) -> Came
    requires room { HasRoom kept.old l (n + size_stmts (stmts_view stmts.now)) }
    ensures swept { SweptStmts (tok_of tok) (stmts_view stmts.now) l n (stock_of kept.old)
        (many_of m) (stock_of kept.new) (many_of result.ones) }
    ensures went { Went kept.old kept.new }
    ensures at { result.at ≡ n + size_stmts (stmts_view stmts.now) }
{
    let mut cur = m;
    let mut at = n;
    for s in stmts {
        let end = sweep_form(kept, tok, &s.flow, l, at, cur);
        cur = end.ones;
        at = end.at;
    }
    Came { ones: cur, at }
}

/// Sweeps until nothing grows: each table then holds just what is found.
pub fn spread(kept: &mut Tables, tok: Tok, body: &FlowBlock, m: Ones)
    requires room { HasRoom kept.old None (size_block (block_view body.now)) }
    requires none { IsReached (tok_of tok) (block_view body.now) (In (many_of m))
        (stock_of kept.old) }
    ensures found { IsFoundIn (tok_of tok) (block_view body.now) (In (many_of m))
        (stock_of kept.new) }
    ensures around { length kept.new.around ≡ length kept.old.around }
    ensures following { length kept.new.following ≡ length kept.old.following }
{
    loop {
        kept.begin();
        let _end = sweep_block(kept, tok, body, None, 0, m);
        if !kept.has_grown() {
            return;
        }
    }
}
