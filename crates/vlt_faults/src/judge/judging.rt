//! The first fault of a part for a token, with what is found in it.

ghost use Rattle.std.specs.Prelude.{◌≡◌, ◌<◌, ◌+◌, ◌^◌, length, None};
ghost use Rattle.vlt_core.specs.Flow.{step, choose, loop, switch, focus, size, size_block, size_stmts, size_arms};
ghost use Rattle.vlt_core.specs.Faults.{spots, spots_block, spots_stmts, spots_arms};
ghost use Rattle.vlt_core.specs.View.{tok_of};
ghost use Rattle.vlt_rows.specs.FlowView.{flow_view, block_view, stmts_view, arms_view, rows_view};
ghost use Rattle.vlt_faults.specs.Judge.Judging.{HasRoom, IsAfterAll, IsJudged, IsJudgedBlock, IsJudgedStmts, IsJudgedArms, Fitting, FittingBlock, FittingStmts, FittingArms};

use crate::finding::{Ones, Tables, nothing};
use crate::judge::blame::{Blame, Class, earlier};
use crate::judge::rows::{judge_gone, judge_join, judge_rows};
use vlt_core::{Row, Tok};
use vlt_rows::{Flow, FlowArm, FlowBlock, FlowStmt};

/// Where a part begins: the numbers of its first statement and of its first row or join, and what comes to it.
#[derive(Clone, Copy)]
pub struct Point {
    pub stmt: usize,
    pub spot: usize,
    pub ones: Ones,
}

/// The first fault of a part, and where the next one begins.
#[derive(Clone, Copy)]
pub struct Judged {
    pub first: Option<Blame>,
    pub next: Point,
}

#[cycle(judge)]
fn judge_form(kept: &Tables, tok: Tok, form: &Flow, at: u32, from: Point) -> Judged
    requires room { HasRoom kept.now (size (flow_view form.now)) (spots (flow_view form.now)) from }
    requires fits { Fitting kept.now (tok_of tok) (flow_view form.now) from }
    ensures { IsJudged (tok_of tok) at (flow_view form.now) from result }
{
    match form {
        Flow::Step { rows } => judge_step(tok, rows.as_slice(), at, from),
        Flow::If {
            rows,
            then_block,
            else_block,
        } => judge_if(kept, tok, rows.as_slice(), then_block, else_block, at, from),
        Flow::While { rows, body } => judge_while(kept, tok, rows.as_slice(), body, at, from),
        Flow::Switch { rows, arms, end } => {
            judge_switch(kept, tok, rows.as_slice(), arms.as_slice(), *end, at, from)
        }
        Flow::Scope { body } => judge_block(
            kept,
            tok,
            body,
            Point {
                stmt: from.stmt + 1,
                ..from
            },
        ),
        Flow::Focus { rows, body, after } => {
            judge_focus(kept, tok, rows.as_slice(), body, after.as_slice(), at, from)
        }
        Flow::Return { rows } => {
            let p = judge_rows(tok, rows.as_slice(), at, from.spot, from.ones);
            after_all(p.first, rows.len(), from)
        }
        Flow::Jump { continues, left } => {
            let p = judge_gone(tok, left.as_slice(), at, from.spot, from.ones);
            after_all(p.first, left.len(), from)
        }
    }
}

/// Following so many rows of a statement that nothing passes.
fn after_all(first: Option<Blame>, rows: usize, from: Point) -> Judged
    requires stmts { from.stmt + 1 < 2 ^ 63 }
    requires spots { from.spot + rows < 2 ^ 63 }
    ensures { IsAfterAll first rows from result }
{
    Judged {
        first,
        next: Point {
            stmt: from.stmt + 1,
            spot: from.spot + rows,
            ones: nothing(),
        },
    }
}

fn judge_step(tok: Tok, rows: &[Row], at: u32, from: Point) -> Judged
    requires stmts { from.stmt + 1 < 2 ^ 63 }
    requires spots { from.spot + length rows.now < 2 ^ 63 }
    ensures { IsJudged (tok_of tok) at (step (rows_view rows.now)) from result }
{
    let p = judge_rows(tok, rows, at, from.spot, from.ones);
    Judged {
        first: p.first,
        next: Point {
            stmt: from.stmt + 1,
            spot: from.spot + rows.len(),
            ones: p.ones,
        },
    }
}

#[cycle(judge)]
fn judge_if(
    kept: &Tables,
    tok: Tok,
    rows: &[Row],
    then_block: &FlowBlock,
    else_block: &FlowBlock,
    at: u32,
    from: Point,
) -> Judged
    requires room { HasRoom kept.now (size (choose (rows_view rows.now)
        (block_view then_block.now) (block_view else_block.now)))
        (spots (choose (rows_view rows.now) (block_view then_block.now)
        (block_view else_block.now))) from }
    requires fits { Fitting kept.now (tok_of tok)
        (choose (rows_view rows.now) (block_view then_block.now) (block_view else_block.now))
        from }
    ensures { IsJudged (tok_of tok) at (choose (rows_view rows.now) (block_view then_block.now)
        (block_view else_block.now)) from result }
{
    let p = judge_rows(tok, rows, at, from.spot, from.ones);
    let a = judge_block(
        kept,
        tok,
        then_block,
        Point {
            stmt: from.stmt + 1,
            spot: from.spot + rows.len(),
            ones: p.ones,
        },
    );
    let b = judge_block(
        kept,
        tok,
        else_block,
        Point {
            ones: p.ones,
            ..a.next
        },
    );
    let following = kept.exit(from.stmt);
    let join = judge_join(tok, else_block.end, Class::Join, b.next.spot, following);
    Judged {
        first: earlier(p.first, earlier(a.first, earlier(b.first, join))),
        next: Point {
            stmt: b.next.stmt,
            spot: b.next.spot + 1,
            ones: following,
        },
    }
}

#[cycle(judge)]
fn judge_while(
    kept: &Tables,
    tok: Tok,
    rows: &[Row],
    body: &FlowBlock,
    at: u32,
    from: Point,
) -> Judged
    requires room { HasRoom kept.now (size (loop (rows_view rows.now) (block_view body.now)))
        (spots (loop (rows_view rows.now) (block_view body.now))) from }
    requires fits { Fitting kept.now (tok_of tok)
        (loop (rows_view rows.now) (block_view body.now)) from }
    ensures { IsJudged (tok_of tok) at (loop (rows_view rows.now) (block_view body.now)) from
        result }
{
    let top = kept.head(from.stmt);
    let head = judge_join(tok, at, Class::Head, from.spot, top);
    let p = judge_rows(tok, rows, at, from.spot + 1, top);
    let s = judge_block(
        kept,
        tok,
        body,
        Point {
            stmt: from.stmt + 1,
            spot: from.spot + 1 + rows.len(),
            ones: p.ones,
        },
    );
    let following = kept.exit(from.stmt);
    let join = judge_join(tok, body.end, Class::Join, s.next.spot, following);
    Judged {
        first: earlier(head, earlier(p.first, earlier(s.first, join))),
        next: Point {
            stmt: s.next.stmt,
            spot: s.next.spot + 1,
            ones: following,
        },
    }
}

#[cycle(judge)]
fn judge_switch(
    kept: &Tables,
    tok: Tok,
    rows: &[Row],
    arms: &[FlowArm],
    end: u32,
    at: u32,
    from: Point,
) -> Judged
    requires room { HasRoom kept.now (size (switch (rows_view rows.now)
        (arms_view arms.now) end)) (spots (switch (rows_view rows.now)
        (arms_view arms.now) end)) from }
    requires fits { Fitting kept.now (tok_of tok)
        (switch (rows_view rows.now) (arms_view arms.now) end) from }
    ensures { IsJudged (tok_of tok) at (switch (rows_view rows.now) (arms_view arms.now) end)
        from result }
{
    let p = judge_rows(tok, rows, at, from.spot, from.ones);
    let s = judge_arms(
        kept,
        tok,
        arms,
        at,
        Point {
            stmt: from.stmt + 1,
            spot: from.spot + rows.len(),
            ones: p.ones,
        },
    );
    let following = kept.exit(from.stmt);
    let join = judge_join(tok, end, Class::Join, s.next.spot, following);
    Judged {
        first: earlier(p.first, earlier(s.first, join)),
        next: Point {
            stmt: s.next.stmt,
            spot: s.next.spot + 1,
            ones: following,
        },
    }
}

#[cycle(judge)]
fn judge_focus(
    kept: &Tables,
    tok: Tok,
    rows: &[Row],
    body: &FlowBlock,
    after: &[Row],
    at: u32,
    from: Point,
) -> Judged
    requires room { HasRoom kept.now (size (focus (rows_view rows.now) (block_view body.now)
        (rows_view after.now))) (spots (focus (rows_view rows.now) (block_view body.now)
        (rows_view after.now))) from }
    requires fits { Fitting kept.now (tok_of tok)
        (focus (rows_view rows.now) (block_view body.now) (rows_view after.now)) from }
    ensures { IsJudged (tok_of tok) at (focus (rows_view rows.now) (block_view body.now)
        (rows_view after.now)) from result }
{
    let p = judge_rows(tok, rows, at, from.spot, from.ones);
    let s = judge_block(
        kept,
        tok,
        body,
        Point {
            stmt: from.stmt + 1,
            spot: from.spot + rows.len(),
            ones: p.ones,
        },
    );
    let e = judge_rows(tok, after, body.end, s.next.spot, s.next.ones);
    Judged {
        first: earlier(p.first, earlier(s.first, e.first)),
        next: Point {
            stmt: s.next.stmt,
            spot: s.next.spot + after.len(),
            ones: e.ones,
        },
    }
}

#[cycle(judge)]
pub fn judge_block(kept: &Tables, tok: Tok, block: &FlowBlock, from: Point) -> Judged
    requires room { HasRoom kept.now (size_block (block_view block.now))
        (spots_block (block_view block.now)) from }
    requires fits { FittingBlock kept.now (tok_of tok) (block_view block.now) from }
    ensures { IsJudgedBlock (tok_of tok) (block_view block.now) from result }
{
    let s = judge_list(kept, tok, block.stmts.as_slice(), from);
    let e = judge_gone(
        tok,
        block.bound.as_slice(),
        block.end,
        s.next.spot,
        s.next.ones,
    );
    Judged {
        first: earlier(s.first, e.first),
        next: Point {
            stmt: s.next.stmt,
            spot: s.next.spot + block.bound.len(),
            ones: e.ones,
        },
    }
}

#[cycle(judge)]
fn judge_list(kept: &Tables, tok: Tok, stmts: &[FlowStmt], from: Point) -> Judged
    requires room { HasRoom kept.now (size_stmts (stmts_view stmts.now))
        (spots_stmts (stmts_view stmts.now)) from }
    requires fits { FittingStmts kept.now (tok_of tok) (stmts_view stmts.now) from }
    ensures { IsJudgedStmts (tok_of tok) (stmts_view stmts.now) from result }
{
    let mut first = None;
    let mut next = from;
    for s in stmts {
        let j = judge_form(kept, tok, &s.flow, s.at, next);
        first = earlier(first, j.first);
        next = j.next;
    }
    Judged { first, next }
}

/// The arms of a switch at this place. What comes out of them isn't told.
#[cycle(judge)]
fn judge_arms(kept: &Tables, tok: Tok, arms: &[FlowArm], at: u32, from: Point) -> Judged
    requires room { HasRoom kept.now (size_arms (arms_view arms.now))
        (spots_arms (arms_view arms.now)) from }
    requires fits { FittingArms kept.now (tok_of tok) (arms_view arms.now) from }
    ensures { IsJudgedArms (tok_of tok) at (arms_view arms.now) from result }
{
    let mut first = None;
    let mut next = from;
    for arm in arms {
        let p = judge_rows(tok, arm.rows.as_slice(), at, next.spot, from.ones);
        let s = judge_block(
            kept,
            tok,
            &arm.body,
            Point {
                stmt: next.stmt,
                spot: next.spot + arm.rows.len(),
                ones: p.ones,
            },
        );
        first = earlier(first, earlier(p.first, s.first));
        next = s.next;
    }
    Judged { first, next }
}
