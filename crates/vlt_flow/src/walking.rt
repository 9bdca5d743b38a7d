//! The walk over a body.

ghost use Rattle.std.specs.Prelude.{◌≡◌, true, ◌||◌, ◌+◌, ◌<◌, Some, None, IsSome, IfOk, OnOk, length};
ghost use Rattle.vlt_core.specs.Flow.{size, size_block, size_stmts, size_arms};
ghost use Rattle.vlt_core.specs.Maps.{CanPass};
ghost use Rattle.vlt_core.specs.Flow.{passes_block, passes_arms};
ghost use Rattle.vlt_core.specs.HeldView.{toks_of};
ghost use Rattle.vlt_rows.specs.FlowView.{flow_view, block_view, stmts_view, arms_view, rows_view};
ghost use Rattle.vlt_keyset.specs.Held.{map_of};
ghost use Rattle.vlt_flow.specs.Walks.{HasRoom, IsWalked, HasNone, form_part, block_part, stmts_part, IsJoinedWay, HasNoWay, IsTurn, HasNoTurn, IsJump, HasNoJump, IsPlace, IsWalkedOn, HasNoneOn, IsTurned, IsJoinedArms, HasNoArms, HasRoomFor, ForLoop, IsLoop, choice_of};
ghost use Rattle.vlt_flow_maps.specs.Kept.{slot};
ghost use Rattle.vlt_flow_maps.specs.Passed.{IfHalted, Passes};

use crate::count::count_form;
use std::alloc::Global;
use vlt_base::either;
use vlt_core::{Row, Tok};
use vlt_flow_maps::{
    Halt, Kept, Walked, comes, copy_after, copy_around, join_copy_after, leave_gone, leave_rows,
    pass_gone, pass_rows, stops,
};
use vlt_keyset::Held;
use vlt_rows::{Flow, FlowArm, FlowBlock, FlowStmt};

/// Whether a way can be passed, and the number of the statement after it.
#[derive(Clone, Copy)]
struct Way {
    passes: bool,
    at: usize,
}

fn pass(held: Held, rows: &[Row]) -> Result<Held, Halt>
    ensures ok { IfOk result (λ h. Passes (rows_view rows.now) (map_of held) (map_of h)) }
    ensures refused { IfHalted result (CanPass (rows_view rows.now) (map_of held) → ⊥) }
{
    let mut held = held;
    pass_rows(&mut held, rows)?;
    Ok(held)
}

/// The map after a choice, if one of its ways can be passed.
fn following(alloc: Global, kept: &Kept, n: usize, way: Way) -> Result<Walked, Halt>
    requires within { n < length kept.now.following }
    requires some { way.passes ≡ true → IsSome (slot kept.now.following n) }
    ensures place { IfOk result (λ w. IsPlace kept.now n way.passes w.held) }
    ensures at { IfOk result (λ w. w.at ≡ way.at) }
    ensures never { IfHalted result ⊥ }
{
    let held = if way.passes {
        Some(copy_after(alloc, kept, n)?)
    } else {
        None
    };
    Ok(Walked { held, at: way.at })
}

/// A jump joins into a map of the loop round it.
fn jump(
    kept: &mut Kept,
    continues: bool,
    left: &[Tok],
    l: Option<usize>,
    held: Held,
) -> Result<(), Halt>
    requires long { length kept.old.following ≡ length kept.old.around }
    requires around { ForLoop l (IsLoop kept.old) }
    ensures ok { OnOk result (IsJump l continues (toks_of left.now)
        (map_of held) kept.old kept.new) }
    ensures refused { IfHalted result (HasNoJump l continues (toks_of left.now)
        (map_of held) kept.old) }
{
    let mut held = held;
    pass_gone(&mut held, left)?;
    match l {
        None => Err(Halt::Refused),
        Some(l) => {
            if continues {
                kept.join_around(l, held)
            } else {
                kept.join_after(l, held)
            }
        }
    }
}

/// Walks the statement n, in the loop l.
#[cycle(walk)]
pub fn walk_form(
    alloc: Global,
    kept: &mut Kept,
    form: &Flow,
    l: Option<usize>,
    n: usize,
    held: Held,
) -> Result<Walked, Halt>
    requires room { HasRoom kept.old l n (n + size (flow_view form.now)) }
    ensures ok { IfOk result (λ w. IsWalked (form_part l n (flow_view form.now))
        l n (n + size (flow_view form.now)) (map_of held) kept.old kept.new w.held) }
    ensures at { IfOk result (λ w. w.at ≡ n + size (flow_view form.now)) }
    ensures refused { IfHalted result (HasNone (form_part l n (flow_view form.now))
        (map_of held) kept.old) }
{
    match form {
        Flow::Step { rows } => {
            let held = pass(held, rows.as_slice())?;
            Ok(comes(held, n + 1))
        }
        Flow::If {
            rows,
            then_block,
            else_block,
        } => {
            let rows = rows.as_slice();
            walk_if(alloc, kept, rows, then_block, else_block, l, n, held)
        }
        Flow::While { rows, body } => {
            kept.join_around(n, held)?;
            let at = walk_turns(alloc, kept, body, rows.as_slice(), n)?;
            let exit = copy_after(alloc, kept, n)?;
            Ok(comes(exit, at))
        }
        Flow::Switch { rows, arms, end } => {
            let inside = pass(held, rows.as_slice())?;
            let way = walk_arms(alloc, kept, arms.as_slice(), l, n, inside)?;
            following(alloc, kept, n, way)
        }
        Flow::Scope { body } => walk_block(alloc, kept, body, l, n + 1, held),
        Flow::Focus { rows, body, after } => {
            let inside = pass(held, rows.as_slice())?;
            let walked = walk_block(alloc, kept, body, l, n + 1, inside)?;
            leave_rows(walked, after.as_slice())
        }
        Flow::Return { rows } => {
            let _end = pass(held, rows.as_slice())?;
            Ok(stops(n + 1))
        }
        Flow::Jump { continues, left } => {
            jump(kept, *continues, left.as_slice(), l, held)?;
            Ok(stops(n + 1))
        }
    }
}

/// The two blocks of the choice n, one after another.
#[cycle(walk)]
fn walk_if(
    alloc: Global,
    kept: &mut Kept,
    rows: &[Row],
    then_block: &FlowBlock,
    else_block: &FlowBlock,
    l: Option<usize>,
    n: usize,
    held: Held,
) -> Result<Walked, Halt>
    requires room { HasRoom kept.old l n
        (n + size (choice_of rows.now then_block.now else_block.now)) }
    ensures ok { IfOk result (λ w. IsWalkedOn l n
        (choice_of rows.now then_block.now else_block.now) (Some held) kept.old kept.new w.held) }
    ensures at { IfOk result (λ w. w.at
        ≡ n + size (choice_of rows.now then_block.now else_block.now)) }
    ensures refused { IfHalted result (HasNoneOn l n
        (choice_of rows.now then_block.now else_block.now) (Some held) kept.old) }
{
    let inside = pass(held, rows)?;
    let other = inside.copy(alloc)?;
    let first = walk_way(alloc, kept, then_block, l, n, n + 1, inside)?;
    let second = walk_way(alloc, kept, else_block, l, n, first.at, other)?;
    let way = Way {
        passes: either(first.passes, second.passes),
        at: second.at,
    };
    following(alloc, kept, n, way)
}

/// A way of the choice k: what comes to its end is joined after the choice.
#[cycle(walk)]
fn walk_way(
    alloc: Global,
    kept: &mut Kept,
    body: &FlowBlock,
    l: Option<usize>,
    k: usize,
    n: usize,
    held: Held,
) -> Result<Way, Halt>
    requires room { HasRoomFor kept.old l k n (n + size_block (block_view body.now)) }
    ensures ok { OnOk result (
        IsJoinedWay l k n (block_view body.now) (map_of held) kept.old kept.new) }
    ensures passes { IfOk result (λ w. w.passes ≡ passes_block (block_view body.now)) }
    ensures at { IfOk result (λ w. w.at ≡ n + size_block (block_view body.now)) }
    ensures refused { IfHalted result (HasNoWay l k n (block_view body.now)
        (map_of held) kept.old) }
{
    let Walked { held, at } = walk_block(alloc, kept, body, l, n, held)?;
    match held {
        None => Ok(Way { passes: false, at }),
        Some(end) => {
            kept.join_after(k, end)?;
            Ok(Way { passes: true, at })
        }
    }
}

/// The arms of the choice n, one after another.
#[cycle(walk)]
fn walk_arms(
    alloc: Global,
    kept: &mut Kept,
    arms: &[FlowArm],
    l: Option<usize>,
    n: usize,
    held: Held,
) -> Result<Way, Halt>
    requires room { HasRoomFor kept.old l n (n + 1) (n + 1 + size_arms (arms_view arms.now)) }
    ensures ok { OnOk result (IsJoinedArms l n (arms_view arms.now)
        (map_of held) kept.old kept.new) }
    ensures passes { IfOk result (λ w. w.passes ≡ passes_arms (arms_view arms.now)) }
    ensures at { IfOk result (λ w. w.at ≡ n + 1 + size_arms (arms_view arms.now)) }
    ensures refused { IfHalted result (HasNoArms l n (arms_view arms.now) (map_of held) kept.old) }
{
    let mut passes = false;
    let mut at = n + 1;
    for arm in arms {
        let inside = pass(held.copy(alloc)?, arm.rows.as_slice())?;
        let way = walk_way(alloc, kept, &arm.body, l, n, at, inside)?;
        passes = either(passes, way.passes);
        at = way.at;
    }
    Ok(Way { passes, at })
}

/// A turn of the loop n, from the map at its head.
#[cycle(walk)]
fn walk_turn(
    alloc: Global,
    kept: &mut Kept,
    body: &FlowBlock,
    rows: &[Row],
    n: usize,
    before: &Held,
) -> Result<usize, Halt>
    requires room { HasRoom kept.old None (n + 1) (n + 1 + size_block (block_view body.now)) }
    requires before { slot kept.old.around n ≡ Some before.now }
    ensures ok { OnOk result (IsTurn (rows_view rows.now) (block_view body.now)
        n (n + 1 + size_block (block_view body.now)) before.now kept.old kept.new) }
    ensures at { IfOk result (λ m. m ≡ n + 1 + size_block (block_view body.now)) }
    ensures refused { IfHalted result (HasNoTurn (rows_view rows.now)
        (block_view body.now) n kept.old) }
{
    let inside = pass(before.copy(alloc)?, rows)?;
    join_copy_after(alloc, kept, n, &inside)?;
    let Walked { held, at } = walk_block(alloc, kept, body, Some(n), n + 1, inside)?;
    match held {
        None => Ok(at),
        Some(back) => {
            kept.join_around(n, back)?;
            Ok(at)
        }
    }
}

/// Turns of the loop n, until the map at its head no longer grows.
#[cycle(walk)]
fn walk_turns(
    alloc: Global,
    kept: &mut Kept,
    body: &FlowBlock,
    rows: &[Row],
    n: usize,
) -> Result<usize, Halt>
    requires room { HasRoom kept.old None (n + 1) (n + 1 + size_block (block_view body.now)) }
    requires some { IsSome (slot kept.old.around n) }
    ensures ok { OnOk result (IsTurned (rows_view rows.now)
        (block_view body.now) n kept.old kept.new) }
    ensures at { IfOk result (λ m. m ≡ n + 1 + size_block (block_view body.now)) }
    ensures refused { IfHalted result (HasNoTurn (rows_view rows.now)
        (block_view body.now) n kept.old) }
{
    loop {
        let before = copy_around(alloc, kept, n)?;
        let at = walk_turn(alloc, kept, body, rows, n, &before)?;
        if kept.is_around(n, &before) {
            return Ok(at);
        }
    }
}

#[cycle(walk)]
pub fn walk_block(
    alloc: Global,
    kept: &mut Kept,
    block: &FlowBlock,
    l: Option<usize>,
    n: usize,
    held: Held,
) -> Result<Walked, Halt>
    requires room { HasRoom kept.old l n (n + size_block (block_view block.now)) }
    ensures ok { IfOk result (λ w. IsWalked (block_part l n (block_view block.now))
        l n (n + size_block (block_view block.now)) (map_of held) kept.old kept.new w.held) }
    ensures at { IfOk result (λ w. w.at ≡ n + size_block (block_view block.now)) }
    ensures refused { IfHalted result (HasNone (block_part l n (block_view block.now))
        (map_of held) kept.old) }
{
    let walked = walk_list(alloc, kept, block.stmts.as_slice(), l, n, held)?;
    leave_gone(walked, block.bound.as_slice())
}

/// One statement after what was walked before it.
#[cycle(walk)]
fn walk_on(
    alloc: Global,
    kept: &mut Kept,
    form: &Flow,
    l: Option<usize>,
    flow: Walked,
) -> Result<Walked, Halt>
    requires room { HasRoom kept.old l flow.at (flow.at + size (flow_view form.now)) }
    ensures ok { IfOk result (λ w. IsWalkedOn l flow.at
        (flow_view form.now) flow.held kept.old kept.new w.held) }
    ensures at { IfOk result (λ w. w.at ≡ flow.at + size (flow_view form.now)) }
    ensures refused { IfHalted result (HasNoneOn l flow.at
        (flow_view form.now) flow.held kept.old) }
{
    let Walked { held, at } = flow;
    match held {
        None => match count_form(form) {
            Ok(more) => Ok(Walked {
                held: None,
                at: at + more,
            }),
            Err(_) => unreachable!(),
        },
        Some(held) => walk_form(alloc, kept, form, l, at, held),
    }
}

#[cycle(walk)]
fn walk_list(
    alloc: Global,
    kept: &mut Kept,
    stmts: &[FlowStmt],
    l: Option<usize>,
    n: usize,
    held: Held,
) -> Result<Walked, Halt>
    requires room { HasRoom kept.old l n (n + size_stmts (stmts_view stmts.now)) }
    ensures ok { IfOk result (λ w. IsWalked (stmts_part l n (stmts_view stmts.now))
        l n (n + size_stmts (stmts_view stmts.now)) (map_of held) kept.old kept.new w.held) }
    ensures at { IfOk result (λ w. w.at ≡ n + size_stmts (stmts_view stmts.now)) }
    ensures refused { IfHalted result (HasNone (stmts_part l n (stmts_view stmts.now))
        (map_of held) kept.old) }
{
    let mut flow = Walked {
        held: Some(held),
        at: n,
    };
    for s in stmts {
        flow = walk_on(alloc, kept, &s.flow, l, flow)?;
    }
    Ok(flow)
}
