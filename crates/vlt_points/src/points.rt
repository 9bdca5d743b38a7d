//! The points of a body, one after another: what is found at each is written.

ghost use Rattle.std.specs.Prelude.{◌≡◌, ◌+◌, ◌-◌, ◌<◌, ◌^◌, ◌&&◌, [], length, IfOk, OnOk};
ghost use Rattle.vlt_core.specs.Flow.{choose, loop, switch, focus, size, size_block, size_stmts, size_arms};
ghost use Rattle.vlt_rows.specs.FlowView.{flow_view, block_view, stmts_view, arms_view, rows_view};
ghost use Rattle.vlt_points.specs.Writing.{IsPageOf, HasRoomFrom, Fitting, FittingBlock, FittingStmts, FittingArms, IsFormAdded, IsLastAdded, IsEndAdded, IsBlockAdded, IsListAdded, AreArmsAdded, LeavesForm, LeavesBlock, LeavesStmts};

use crate::found::Found;
use crate::kept::Kept;
use crate::page::{Page, Source};
use std::alloc::AllocError;
use vlt_base::either;
use vlt_core::Row;
use vlt_rows::{Flow, FlowArm, FlowBlock, FlowStmt};

/// What the points are read off: the tables of the body, by statement.
#[derive(Clone, Copy)]
pub struct Walk<'a> {
    pub source: Source<'a>,
    pub kept: &'a Kept,
}

/// The number of the statement after a part, and whether a path can come out of the part.
#[derive(Clone, Copy)]
pub struct Came {
    pub at: usize,
    pub passes: bool,
}

/// Whether two facts hold. Both are evaluated.
fn both(a: bool, b: bool) -> bool
    ensures { result ≡ (a && b) }
{
    a && b
}

/// Adds the points of a statement at this place. What comes to it is replaced by what comes out of it.
#[cycle(points)]
fn add_form(
    walk: &Walk,
    page: &mut Page,
    form: &Flow,
    at: u32,
    n: usize,
    m: &mut Found,
) -> Result<Came, AllocError>
    requires text { length walk.now.source.text.now < 2 ^ 32 - 1 }
    requires page { IsPageOf walk.now.source page.old }
    requires room { HasRoomFrom walk.now.kept.now n (size (flow_view form.now)) }
    requires fits { Fitting walk.now.kept.now (flow_view form.now) n m.old }
    ensures added { IfOk result (IsFormAdded walk.now.source at n (flow_view form.now) m.old
        page.old page.new) }
    ensures leaves { OnOk result (LeavesForm (flow_view form.now) m.old m.new) }
{
    match form {
        Flow::Step { rows } => {
            page.add(&walk.source, at, m)?;
            m.pass_rows(rows.as_slice());
            Ok(Came {
                at: n + 1,
                passes: true,
            })
        }
        Flow::If {
            rows,
            then_block,
            else_block,
        } => add_if(
            walk,
            page,
            rows.as_slice(),
            then_block,
            else_block,
            at,
            n,
            m,
        ),
        Flow::While { rows, body } => add_while(walk, page, rows.as_slice(), body, at, n, m),
        Flow::Switch { rows, arms, end } => {
            add_switch(walk, page, rows.as_slice(), arms.as_slice(), *end, at, n, m)
        }
        Flow::Scope { body } => {
            page.add(&walk.source, at, m)?;
            let came = add_block(walk, page, body, n + 1, m)?;
            Ok(came)
        }
        Flow::Focus { rows, body, after } => {
            add_focus(
                walk,
                page,
                rows.as_slice(),
                body,
                after.as_slice(),
                at,
                n,
                m,
            )
        }
        Flow::Return { rows } => {
            let came = add_last(&walk.source, page, at, n, m)?;
            Ok(came)
        }
        Flow::Jump { continues, left } => {
            let came = add_last(&walk.source, page, at, n, m)?;
            Ok(came)
        }
    }
}

/// Adds the point of a statement at this place that no path comes out of.
fn add_last(
    source: &Source,
    page: &mut Page,
    at: u32,
    n: usize,
    m: &mut Found,
) -> Result<Came, AllocError>
    requires text { length source.now.text.now < 2 ^ 32 - 1 }
    requires page { IsPageOf source.now page.old }
    requires few { n + 1 < 2 ^ 63 }
    ensures added { IfOk result (IsLastAdded source.now at n m.old page.old page.new) }
    ensures leaves { OnOk result (m.new ≡ []) }
{
    page.add(source, at, m)?;
    m.clear();
    Ok(Came {
        at: n + 1,
        passes: false,
    })
}

#[cycle(points)]
fn add_if(
    walk: &Walk,
    page: &mut Page,
    rows: &[Row],
    then_block: &FlowBlock,
    else_block: &FlowBlock,
    at: u32,
    n: usize,
    m: &mut Found,
) -> Result<Came, AllocError>
    requires text { length walk.now.source.text.now < 2 ^ 32 - 1 }
    requires page { IsPageOf walk.now.source page.old }
    requires room { HasRoomFrom walk.now.kept.now n (size (choose (rows_view rows.now)
        (block_view then_block.now) (block_view else_block.now))) }
    requires fits { Fitting walk.now.kept.now (choose (rows_view rows.now)
        (block_view then_block.now) (block_view else_block.now)) n m.old }
    ensures added { IfOk result (IsFormAdded walk.now.source at n (choose (rows_view rows.now)
        (block_view then_block.now) (block_view else_block.now)) m.old page.old page.new) }
    ensures leaves { OnOk result (LeavesForm (choose (rows_view rows.now)
        (block_view then_block.now) (block_view else_block.now)) m.old m.new) }
{
    page.add(&walk.source, at, m)?;
    m.pass_rows(rows);
    let mut other = m.copy(walk.source.alloc)?;
    let first = add_block(walk, page, then_block, n + 1, &mut other)?;
    let second = add_block(walk, page, else_block, first.at, m)?;
    m.set(walk.kept.exit(n))?;
    Ok(Came {
        at: second.at,
        passes: either(first.passes, second.passes),
    })
}

#[cycle(points)]
fn add_while(
    walk: &Walk,
    page: &mut Page,
    rows: &[Row],
    body: &FlowBlock,
    at: u32,
    n: usize,
    m: &mut Found,
) -> Result<Came, AllocError>
    requires text { length walk.now.source.text.now < 2 ^ 32 - 1 }
    requires page { IsPageOf walk.now.source page.old }
    requires room { HasRoomFrom walk.now.kept.now n (size (loop (rows_view rows.now)
        (block_view body.now))) }
    requires fits { Fitting walk.now.kept.now (loop (rows_view rows.now) (block_view body.now)) n
        m.old }
    ensures added { IfOk result (IsFormAdded walk.now.source at n (loop (rows_view rows.now)
        (block_view body.now)) m.old page.old page.new) }
    ensures leaves { OnOk result (LeavesForm (loop (rows_view rows.now) (block_view body.now))
        m.old m.new) }
{
    m.set(walk.kept.head(n))?;
    page.add(&walk.source, at, m)?;
    m.pass_rows(rows);
    let turn = add_block(walk, page, body, n + 1, m)?;
    m.set(walk.kept.exit(n))?;
    Ok(Came {
        at: turn.at,
        passes: true,
    })
}

#[cycle(points)]
fn add_switch(
    walk: &Walk,
    page: &mut Page,
    rows: &[Row],
    arms: &[FlowArm],
    end: u32,
    at: u32,
    n: usize,
    m: &mut Found,
) -> Result<Came, AllocError>
    requires text { length walk.now.source.text.now < 2 ^ 32 - 1 }
    requires page { IsPageOf walk.now.source page.old }
    requires room { HasRoomFrom walk.now.kept.now n (size (switch (rows_view rows.now)
        (arms_view arms.now) end)) }
    requires fits { Fitting walk.now.kept.now (switch (rows_view rows.now) (arms_view arms.now) end)
        n m.old }
    ensures added { IfOk result (IsFormAdded walk.now.source at n (switch (rows_view rows.now)
        (arms_view arms.now) end) m.old page.old page.new) }
    ensures leaves { OnOk result (LeavesForm (switch (rows_view rows.now) (arms_view arms.now)
        end) m.old m.new) }
{
    page.add(&walk.source, at, m)?;
    m.pass_rows(rows);
    let ways = add_arms(walk, page, arms, n + 1, m)?;
    m.set(walk.kept.exit(n))?;
    Ok(ways)
}

#[cycle(points)]
fn add_focus(
    walk: &Walk,
    page: &mut Page,
    rows: &[Row],
    body: &FlowBlock,
    after: &[Row],
    at: u32,
    n: usize,
    m: &mut Found,
) -> Result<Came, AllocError>
    requires text { length walk.now.source.text.now < 2 ^ 32 - 1 }
    requires page { IsPageOf walk.now.source page.old }
    requires room { HasRoomFrom walk.now.kept.now n (size (focus (rows_view rows.now)
        (block_view body.now) (rows_view after.now))) }
    requires fits { Fitting walk.now.kept.now (focus (rows_view rows.now) (block_view body.now)
        (rows_view after.now)) n m.old }
    ensures added { IfOk result (IsFormAdded walk.now.source at n (focus (rows_view rows.now)
        (block_view body.now) (rows_view after.now)) m.old page.old page.new) }
    ensures leaves { OnOk result (LeavesForm (focus (rows_view rows.now) (block_view body.now)
        (rows_view after.now)) m.old m.new) }
{
    page.add(&walk.source, at, m)?;
    m.pass_rows(rows);
    let inside = add_block(walk, page, body, n + 1, m)?;
    m.pass_rows(after);
    Ok(inside)
}

/// Adds the points of a block, and that of its closing brace if a path comes to it.
#[cycle(points)]
pub fn add_block(
    walk: &Walk,
    page: &mut Page,
    block: &FlowBlock,
    n: usize,
    m: &mut Found,
) -> Result<Came, AllocError>
    requires text { length walk.now.source.text.now < 2 ^ 32 - 1 }
    requires page { IsPageOf walk.now.source page.old }
    requires room { HasRoomFrom walk.now.kept.now n (size_block (block_view block.now)) }
    requires fits { FittingBlock walk.now.kept.now (block_view block.now) n m.old }
    ensures added { IfOk result (IsBlockAdded walk.now.source n (block_view block.now) m.old
        page.old page.new) }
    ensures leaves { OnOk result (LeavesBlock (block_view block.now) m.old m.new) }
{
    let came = add_list(walk, page, block.stmts.as_slice(), n, m)?;
    add_end(&walk.source, page, block.end, came.passes, m)?;
    m.pass_gone(block.bound.as_slice());
    Ok(came)
}

/// Adds the point of a closing brace at this place, if a path comes to it.
fn add_end(
    source: &Source,
    page: &mut Page,
    at: u32,
    passes: bool,
    m: &Found,
) -> Result<(), AllocError>
    requires text { length source.now.text.now < 2 ^ 32 - 1 }
    requires page { IsPageOf source.now page.old }
    ensures page { OnOk result (IsPageOf source.now page.new) }
    ensures end { OnOk result (IsEndAdded source.now at passes m.now page.old page.new) }
{
    if passes {
        page.add(source, at, m)?;
    }
    Ok(())
}

#[cycle(points)]
fn add_list(
    walk: &Walk,
    page: &mut Page,
    stmts: &[FlowStmt],
    n: usize,
    m: &mut Found,
) -> Result<Came, AllocError>
    requires text { length walk.now.source.text.now < 2 ^ 32 - 1 }
    requires page { IsPageOf walk.now.source page.old }
    requires room { HasRoomFrom walk.now.kept.now n (size_stmts (stmts_view stmts.now)) }
    requires fits { FittingStmts walk.now.kept.now (stmts_view stmts.now) n m.old }
    ensures added { IfOk result (IsListAdded walk.now.source n (stmts_view stmts.now) m.old page.old
        page.new) }
    ensures leaves { OnOk result (LeavesStmts (stmts_view stmts.now) m.old m.new) }
{
    let mut at = n;
    let mut passes = true;
    for s in stmts {
        let came = add_form(walk, page, &s.flow, s.at, at, m)?;
        at = came.at;
        passes = both(passes, came.passes);
    }
    Ok(Came { at, passes })
}

/// Adds the points of the arms of a switch. What comes out of them isn't told.
#[cycle(points)]
fn add_arms(
    walk: &Walk,
    page: &mut Page,
    arms: &[FlowArm],
    n: usize,
    m: &Found,
) -> Result<Came, AllocError>
    requires text { length walk.now.source.text.now < 2 ^ 32 - 1 }
    requires page { IsPageOf walk.now.source page.old }
    requires room { HasRoomFrom walk.now.kept.now n (size_arms (arms_view arms.now)) }
    requires fits { FittingArms walk.now.kept.now (arms_view arms.now) n m.now }
    ensures added { IfOk result (AreArmsAdded walk.now.source n (arms_view arms.now) m.now page.old
        page.new) }
{
    let mut at = n;
    let mut passes = false;
    for arm in arms {
        let mut way = m.copy(walk.source.alloc)?;
        way.pass_rows(arm.rows.as_slice());
        let came = add_block(walk, page, &arm.body, at, &mut way)?;
        at = came.at;
        passes = either(passes, came.passes);
    }
    Ok(Came { at, passes })
}
