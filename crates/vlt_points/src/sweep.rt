//! Sweeps over a body, for all tokens at once.

ghost use Rattle.std.specs.Prelude.{◌≡◌, ◌+◌, ◌<◌, ◌^◌, ℕ, Some, None, [], length, IfOk, OnOk};
ghost use Rattle.vlt_core.specs.Core.{Tok};
ghost use Rattle.vlt_core.specs.Flow.{size, size_block, size_stmts, size_arms};
ghost use Rattle.vlt_rows.specs.FlowView.{flow_view, block_view, stmts_view, arms_view, rows_view};
ghost use Rattle.vlt_core_laws.specs.Sweep.{Swept, SweptBlock, SweptStmts, SweptArms, WayBy, TurnBy, Lands, In, IsFoundIn};
ghost use Rattle.vlt_points.specs.Founds.{found};
ghost use Rattle.vlt_points.specs.Keeps.{stock, Went, HasRoom, ForLoop};

use crate::found::Found;
use crate::kept::Kept;
use std::alloc::{AllocError, Global};
use vlt_core::Row;
use vlt_rows::{Flow, FlowArm, FlowBlock, FlowStmt};

fn land(kept: &mut Kept, l: Option<usize>, continues: bool, m: &Found) -> Result<(), AllocError>
    requires long { length kept.old.following ≡ length kept.old.around }
    requires around { ForLoop l (length kept.old.around) }
    ensures lands { OnOk result ((t : Tok) →
        Lands l continues (found m.now t) (stock kept.old t) (stock kept.new t)) }
    ensures went { OnOk result (Went kept.old m.now kept.new m.now) }
{
    match l {
        None => Ok(()),
        Some(l) => {
            if continues {
                kept.join_head(l, m)
            } else {
                kept.join_exit(l, m)
            }
        }
    }
}

/// From what comes to a statement to what comes out of it, and the number of the one after it.
#[cycle(sweep)]
fn sweep_form(
    alloc: Global,
    kept: &mut Kept,
    form: &Flow,
    l: Option<usize>,
    n: usize,
    m: &mut Found,
) -> Result<usize, AllocError>
    requires room { HasRoom kept.old l (n + size (flow_view form.now)) }
    ensures swept { OnOk result ((t : Tok) → Swept t (flow_view form.now) l n
        (stock kept.old t) (found m.old t) (stock kept.new t) (found m.new t)) }
    ensures went { OnOk result (Went kept.old m.old kept.new m.new) }
    ensures at { IfOk result (λ at. at ≡ n + size (flow_view form.now)) }
{
    match form {
        Flow::Step { rows } => {
            m.pass_rows(rows.as_slice());
            Ok(n + 1)
        }
        Flow::If {
            rows,
            then_block,
            else_block,
        } => {
            m.pass_rows(rows.as_slice());
            let mut other = m.copy(alloc)?;
            let first = sweep_way(alloc, kept, then_block, l, n, n + 1, &mut other)?;
            let second = sweep_way(alloc, kept, else_block, l, n, first, m)?;
            m.set(kept.exit(n))?;
            Ok(second)
        }
        Flow::While { rows, body } => {
            kept.join_head(n, m)?;
            let at = sweep_turn(alloc, kept, body, rows.as_slice(), n)?;
            m.set(kept.exit(n))?;
            Ok(at)
        }
        Flow::Switch { rows, arms, end } => {
            m.pass_rows(rows.as_slice());
            let at = sweep_arms(alloc, kept, arms.as_slice(), l, n, m)?;
            m.set(kept.exit(n))?;
            Ok(at)
        }
        Flow::Scope { body } => {
            let at = sweep_block(alloc, kept, body, l, n + 1, m)?;
            Ok(at)
        }
        Flow::Focus { rows, body, after } => {
            m.pass_rows(rows.as_slice());
            let at = sweep_block(alloc, kept, body, l, n + 1, m)?;
            m.pass_rows(after.as_slice());
            Ok(at)
        }
        Flow::Return { rows } => {
            m.clear();
            Ok(n + 1)
        }
        Flow::Jump { continues, left } => {
            m.pass_gone(left.as_slice());
            land(kept, l, *continues, m)?;
            m.clear();
            Ok(n + 1)
        }
    }
}

/// A way of the choice c: what comes to its end is joined after the choice.
#[cycle(sweep)]
fn sweep_way(
    alloc: Global,
    kept: &mut Kept,
    body: &FlowBlock,
    l: Option<usize>,
    c: usize,
    n: usize,
    m: &mut Found,
) -> Result<usize, AllocError>
    requires room { HasRoom kept.old l (n + size_block (block_view body.now)) }
    requires choice { c < length kept.old.around }
    ensures swept { OnOk result ((t : Tok) → WayBy (SweptBlock t (block_view body.now) l n) c
        (stock kept.old t) (found m.old t) (stock kept.new t)) }
    ensures went { OnOk result (Went kept.old m.old kept.new m.new) }
    ensures at { IfOk result (λ at. at ≡ n + size_block (block_view body.now)) }
{
    let at = sweep_block(alloc, kept, body, l, n, m)?;
    kept.join_exit(c, m)?;
    Ok(at)
}

/// A turn of the loop n.
#[cycle(sweep)]
fn sweep_turn(
    alloc: Global,
    kept: &mut Kept,
    body: &FlowBlock,
    rows: &[Row],
    n: usize,
) -> Result<usize, AllocError>
    requires room { HasRoom kept.old None (n + 1 + size_block (block_view body.now)) }
    requires within { n < length kept.old.around }
    ensures swept { OnOk result ((t : Tok) →
        TurnBy (SweptBlock t (block_view body.now) (Some n) (n + 1)) t (rows_view rows.now) n
        (stock kept.old t) (stock kept.new t)) }
    ensures went { OnOk result (Went kept.old [] kept.new []) }
    ensures at { IfOk result (λ at. at ≡ n + 1 + size_block (block_view body.now)) }
{
    let mut m = kept.head(n).copy(alloc)?;
    m.pass_rows(rows);
    kept.join_exit(n, &m)?;
    let at = sweep_block(alloc, kept, body, Some(n), n + 1, &mut m)?;
    kept.join_head(n, &m)?;
    Ok(at)
}

/// The arms of the choice c.
#[cycle(sweep)]
fn sweep_arms(
    alloc: Global,
    kept: &mut Kept,
    arms: &[FlowArm],
    l: Option<usize>,
    c: usize,
    m: &Found,
) -> Result<usize, AllocError>
    requires room { HasRoom kept.old l (c + 1 + size_arms (arms_view arms.now)) }
    ensures swept { OnOk result ((t : Tok) → SweptArms t (arms_view arms.now) l c (c + 1)
        (stock kept.old t) (found m.now t) (stock kept.new t)) }
    ensures went { OnOk result (Went kept.old m.now kept.new m.now) }
    ensures at { IfOk result (λ at. at ≡ c + 1 + size_arms (arms_view arms.now)) }
{
    let mut at = c + 1;
    for arm in arms {
        let mut way = m.copy(alloc)?;
        way.pass_rows(arm.rows.as_slice());
        at = sweep_way(alloc, kept, &arm.body, l, c, at, &mut way)?;
    }
    Ok(at)
}

#[cycle(sweep)]
fn sweep_block(
    alloc: Global,
    kept: &mut Kept,
    block: &FlowBlock,
    l: Option<usize>,
    n: usize,
    m: &mut Found,
) -> Result<usize, AllocError>
    requires room { HasRoom kept.old l (n + size_block (block_view block.now)) }
    ensures swept { OnOk result ((t : Tok) → SweptBlock t (block_view block.now) l n
        (stock kept.old t) (found m.old t) (stock kept.new t) (found m.new t)) }
    ensures went { OnOk result (Went kept.old m.old kept.new m.new) }
    ensures at { IfOk result (λ at. at ≡ n + size_block (block_view block.now)) }
{
    let at = sweep_list(alloc, kept, block.stmts.as_slice(), l, n, m)?;
    m.pass_gone(block.bound.as_slice());
    Ok(at)
}

#[cycle(sweep)]
fn sweep_list(
    alloc: Global,
    kept: &mut Kept,
    stmts: &[FlowStmt],
    l: Option<usize>,
    n: usize,
    m: &mut Found,
) -> Result<usize, AllocError>
    requires room { HasRoom kept.old l (n + size_stmts (stmts_view stmts.now)) }
    ensures swept { OnOk result ((t : Tok) → SweptStmts t (stmts_view stmts.now) l n
        (stock kept.old t) (found m.old t) (stock kept.new t) (found m.new t)) }
    ensures went { OnOk result (Went kept.old m.old kept.new m.new) }
    ensures at { IfOk result (λ at. at ≡ n + size_stmts (stmts_view stmts.now)) }
{
    let mut at = n;
    for s in stmts {
        at = sweep_form(alloc, kept, &s.flow, l, at, m)?;
    }
    Ok(at)
}

/// What paths find of each token that comes to the body with these: at each loop's head, and after each loop and choice.
/// `count` is how many statements the body has.
pub fn find(
    alloc: Global,
    body: &FlowBlock,
    count: usize,
    start: &Found,
) -> Result<Kept, AllocError>
    requires count { count ≡ size_block (block_view body.now) }
    requires few { count < 2 ^ 63 }
    ensures found { IfOk result (λ k. (t : Tok) → IsFoundIn t (block_view body.now)
        (In (found start.now t)) (stock k t)) }
    ensures around { IfOk result (λ k. length k.around ≡ count) }
    ensures following { IfOk result (λ k. length k.following ≡ count) }
{
    let mut kept = Kept::open(alloc, count)?;
    loop {
        kept.begin();
        let mut m = start.copy(alloc)?;
        let _at = sweep_block(alloc, &mut kept, body, None, 0, &mut m)?;
        if !kept.has_grown() {
            return Ok(kept);
        }
    }
}
