//! The search: through each part of a body once, from every status at the head of a loop.

ghost use Rattle.std.specs.Prelude.{◌≡◌, ◌+◌, ◌≤◌, ◌^◌, [], map, IfOk, MatchResult, OnOk};
ghost use Rattle.vlt_core.specs.Maps.{away_row};
ghost use Rattle.vlt_core.specs.Flow.{choose, loop, switch, focus, return, jump};
ghost use Rattle.vlt_witness.specs.declared.search.Jumps.{Jumps as JumpsSpec};
ghost use Rattle.vlt_core.specs.HeldView.{toks_of};
ghost use Rattle.vlt_rows.specs.FlowView.{flow_view, block_view, stmts_view, arm_view, arms_view, rows_view};
ghost use Rattle.vlt_rows.specs.Unfit.{UnfitBy};
ghost use Rattle.vlt_rows.specs.declared.sink.RowError.TheVariants.{Memory};
ghost use Rattle.vlt_witness.specs.Parts.{SearchesForm, SearchesBlock, SearchesStmts, SearchesArm, SearchesArms, SearchesWay, IsLanded, SearchesTurn};
ghost use Rattle.vlt_witness.specs.Between.{Counts, PassesRows, Arrives, AreTogether, EntersArm, BeginsTurn, EndsTurn, LeavesLoop};

use crate::aim::Aim;
use crate::rows::{gone_rows, pass};
use crate::seen::{JoinName, Seen, compose_seen, see_join};
use crate::ways::{Way, chosen, close, compose, every, join};
use std::alloc::{AllocError, Global};
use vlt_base::Items;
use vlt_core::{Pick, Row, Tok};
use vlt_rows::{Flow, FlowArm, FlowBlock, FlowStmt, RowError};

/// Ways that jump out of a part.
#[derive(Drop)]
pub struct Jumps {
    pub breaks: Items<Way>,
    pub continues: Items<Way>,
}

/// Ways that go on after a part, and the number of the next row or join.
#[derive(Drop)]
pub struct Went {
    pub next: Items<Way>,
    pub number: usize,
}

/// The number after so many rows and joins.
fn following(number: usize, count: usize) -> Result<usize, RowError>
    ensures { MatchResult result (λ n. n ≡ number + count)
        (UnfitBy (2 ^ 64 ≤ number + count)) }
{
    match number.checked_add(count) {
        Some(next) => Ok(next),
        None => Err(RowError::Unfit),
    }
}

/// The ways go on after so many rows and joins.
fn counted(next: Items<Way>, number: usize, count: usize) -> Result<Went, RowError>
    ensures { Counts next (number + count) result }
{
    match number.checked_add(count) {
        Some(number) => Ok(Went { next, number }),
        None => Err(RowError::Unfit),
    }
}

/// Takes ways through rows, and counts these.
fn pass_rows(
    alloc: Global,
    aim: Aim,
    rows: &[Row],
    at: u32,
    number: usize,
    ways: Items<Way>,
    met: &mut Items<Seen>,
) -> Result<Went, RowError>
    ensures { PassesRows aim at number (rows_view rows.now) ways met.old met.new result }
{
    let next = pass(alloc, aim, at, rows, ways, met)?;
    counted(next, number, rows.len())
}

/// Takes ways out of a scope with these tokens.
fn leave(
    alloc: Global,
    aim: Aim,
    left: &[Tok],
    at: u32,
    number: usize,
    ways: Items<Way>,
    met: &mut Items<Seen>,
) -> Result<Went, RowError>
    ensures { PassesRows aim at number (map away_row (toks_of left.now)) ways met.old met.new
        result }
{
    let rows = gone_rows(alloc, left)?;
    pass_rows(alloc, aim, rows.as_slice(), at, number, ways, met)
}

/// Takes ways to the join after a part, and counts it.
fn arrive(
    alloc: Global,
    aim: Aim,
    at: u32,
    number: usize,
    ways: Items<Way>,
    met: &mut Items<Seen>,
) -> Result<Went, RowError>
    ensures { Arrives aim at number ways met.old met.new result }
{
    let here = JoinName {
        is_head: false,
        number,
    };
    see_join(alloc, aim, here, at, ways.as_slice(), met)?;
    counted(ways, number, 1)
}

pub fn no_jumps(alloc: Global) -> Jumps
    ensures breaks { result.breaks ≡ [] }
    ensures continues { result.continues ≡ [] }
{
    Jumps {
        breaks: Items::new(alloc),
        continues: Items::new(alloc),
    }
}

#[cycle(search)]
fn search_form(
    alloc: Global,
    aim: Aim,
    form: &Flow,
    at: u32,
    number: usize,
    ways: Items<Way>,
    jumps: &mut Jumps,
    met: &mut Items<Seen>,
) -> Result<Went, RowError>
    ensures { SearchesForm aim at number (flow_view form.now) ways jumps.old jumps.new met.old
        met.new result }
{
    match form {
        Flow::Step { rows } => pass_rows(alloc, aim, rows.as_slice(), at, number, ways, met),
        Flow::If {
            rows,
            then_block,
            else_block,
        } => search_if(
            alloc,
            aim,
            rows.as_slice(),
            then_block,
            else_block,
            at,
            number,
            ways,
            jumps,
            met,
        ),
        Flow::While { rows, body } => {
            search_while(alloc, aim, rows.as_slice(), body, at, number, ways, met)
        }
        Flow::Switch { rows, arms, end } => search_switch(
            alloc,
            aim,
            rows.as_slice(),
            arms.as_slice(),
            *end,
            at,
            number,
            ways,
            jumps,
            met,
        ),
        Flow::Scope { body } => search_block(alloc, aim, body, number, ways, jumps, met),
        Flow::Focus { rows, body, after } => search_focus(
            alloc,
            aim,
            rows.as_slice(),
            body,
            after.as_slice(),
            at,
            number,
            ways,
            met,
        ),
        Flow::Return { rows } => search_return(alloc, aim, rows.as_slice(), at, number, ways, met),
        Flow::Jump { continues, left } => search_jump(
            alloc,
            aim,
            *continues,
            left.as_slice(),
            at,
            number,
            ways,
            jumps,
            met,
        ),
    }
}

/// Nothing comes after a return.
fn search_return(
    alloc: Global,
    aim: Aim,
    rows: &[Row],
    at: u32,
    number: usize,
    ways: Items<Way>,
    met: &mut Items<Seen>,
) -> Result<Went, RowError>
    ensures { (j : JumpsSpec) → SearchesForm aim at number (return (rows_view rows.now)) ways j j
        met.old met.new result }
{
    let ended = pass_rows(alloc, aim, rows, at, number, ways, met)?;
    Ok(Went {
        next: Items::new(alloc),
        number: ended.number,
    })
}

/// Puts ways to those of a jump.
fn land(alloc: Global, jumps: &mut Jumps, continues: bool, ways: &[Way]) -> Result<(), AllocError>
    ensures { OnOk result (IsLanded continues ways.now jumps.old jumps.new) }
{
    if continues {
        join(alloc, &mut jumps.continues, ways)?;
        return Ok(());
    }
    join(alloc, &mut jumps.breaks, ways)?;
    Ok(())
}

/// A jump, with the tokens of the scopes that it leaves.
fn search_jump(
    alloc: Global,
    aim: Aim,
    continues: bool,
    left: &[Tok],
    at: u32,
    number: usize,
    ways: Items<Way>,
    jumps: &mut Jumps,
    met: &mut Items<Seen>,
) -> Result<Went, RowError>
    ensures { SearchesForm aim at number (jump continues (toks_of left.now)) ways jumps.old
        jumps.new met.old met.new result }
{
    let rows = gone_rows(alloc, left)?;
    let gone = pass(alloc, aim, at, rows.as_slice(), ways, met)?;
    land(alloc, jumps, continues, gone.as_slice())?;
    counted(Items::new(alloc), number, left.len())
}

/// An arm of an `if`, by its choice.
#[cycle(search)]
fn search_way(
    alloc: Global,
    aim: Aim,
    pick: Pick,
    block: &FlowBlock,
    at: u32,
    number: usize,
    ways: &[Way],
    jumps: &mut Jumps,
    met: &mut Items<Seen>,
) -> Result<Went, RowError>
    ensures { SearchesWay aim at pick number (block_view block.now) ways.now jumps.old jumps.new
        met.old met.new result }
{
    let picked = chosen(alloc, ways, at, pick)?;
    search_block(alloc, aim, block, number, picked, jumps, met)
}

/// The ways of one arm of an `if` and of the other.
fn together(alloc: Global, first: Went, second: Went) -> Result<Went, AllocError>
    ensures { IfOk result (AreTogether first second) }
{
    let mut next = first.next;
    join(alloc, &mut next, second.next.as_slice())?;
    Ok(Went {
        next,
        number: second.number,
    })
}

#[cycle(search)]
fn search_if(
    alloc: Global,
    aim: Aim,
    rows: &[Row],
    then_block: &FlowBlock,
    else_block: &FlowBlock,
    at: u32,
    number: usize,
    ways: Items<Way>,
    jumps: &mut Jumps,
    met: &mut Items<Seen>,
) -> Result<Went, RowError>
    ensures { SearchesForm aim at number (choose (rows_view rows.now) (block_view then_block.now)
        (block_view else_block.now)) ways jumps.old jumps.new met.old met.new result }
{
    let passed = pass_rows(alloc, aim, rows, at, number, ways, met)?;
    let first = search_way(
        alloc,
        aim,
        Pick::Then,
        then_block,
        at,
        passed.number,
        passed.next.as_slice(),
        jumps,
        met,
    )?;
    let second = search_way(
        alloc,
        aim,
        Pick::Else,
        else_block,
        at,
        first.number,
        passed.next.as_slice(),
        jumps,
        met,
    )?;
    let went = together(alloc, first, second)?;
    arrive(alloc, aim, else_block.end, went.number, went.next, met)
}

/// What a turn of a loop leads to from each status at its head.
#[derive(Drop)]
pub struct Turned {
    /// At the head again.
    pub turn: Items<Way>,
    /// Out of the loop.
    pub leave: Items<Way>,
    pub met: Items<Seen>,
    pub number: usize,
}

/// A turn of a loop as it begins, from each status at the head.
#[derive(Drop)]
pub struct Begun {
    /// After the rows of the condition.
    pub passed: Items<Way>,
    /// Those that leave the loop there.
    pub leave: Items<Way>,
    pub number: usize,
}

fn begin_turn(
    alloc: Global,
    aim: Aim,
    rows: &[Row],
    at: u32,
    number: usize,
    met: &mut Items<Seen>,
) -> Result<Begun, RowError>
    ensures { BeginsTurn aim at number (rows_view rows.now) met.old met.new result }
{
    let heads = every(alloc)?;
    let here = JoinName {
        is_head: true,
        number,
    };
    see_join(alloc, aim, here, at, heads.as_slice(), met)?;
    let passed = pass(alloc, aim, at, rows, heads, met)?;
    let leave = chosen(alloc, passed.as_slice(), at, Pick::Exit)?;
    let first = following(following(number, 1)?, rows.len())?;
    Ok(Begun {
        passed,
        leave,
        number: first,
    })
}

/// A turn as it ends: by the end of the body, and by jumps inside.
fn end_turn(alloc: Global, end: Went, inside: Jumps, met: Items<Seen>) -> Result<Turned, RowError>
    ensures { MatchResult result (EndsTurn end inside met) (λ e. e ≡ Memory) }
{
    let mut turn = end.next;
    join(alloc, &mut turn, inside.continues.as_slice())?;
    Ok(Turned {
        turn,
        leave: inside.breaks,
        met,
        number: end.number,
    })
}

#[cycle(search)]
fn search_turn(
    alloc: Global,
    aim: Aim,
    rows: &[Row],
    body: &FlowBlock,
    at: u32,
    number: usize,
) -> Result<Turned, RowError>
    ensures { SearchesTurn aim at number (rows_view rows.now) (block_view body.now) result }
{
    let mut met = Items::new(alloc);
    let begun = begin_turn(alloc, aim, rows, at, number, &mut met)?;
    let mut inside = Jumps {
        breaks: begun.leave,
        continues: Items::new(alloc),
    };
    let end = search_way(
        alloc,
        aim,
        Pick::Turn,
        body,
        at,
        begun.number,
        begun.passed.as_slice(),
        &mut inside,
        &mut met,
    )?;
    end_turn(alloc, end, inside, met)
}

/// Goes on from the head of a loop, by any number of turns and out of it.
fn leave_loop(
    alloc: Global,
    aim: Aim,
    end: u32,
    turned: &Turned,
    ways: &[Way],
    met: &mut Items<Seen>,
) -> Result<Went, RowError>
    ensures { LeavesLoop aim end turned.now ways.now met.old met.new result }
{
    let heads = close(alloc, ways, turned.turn.as_slice())?;
    compose_seen(alloc, heads.as_slice(), turned.met.as_slice(), met)?;
    let next = compose(alloc, heads.as_slice(), turned.leave.as_slice())?;
    arrive(alloc, aim, end, turned.number, next, met)
}

#[cycle(search)]
fn search_while(
    alloc: Global,
    aim: Aim,
    rows: &[Row],
    body: &FlowBlock,
    at: u32,
    number: usize,
    ways: Items<Way>,
    met: &mut Items<Seen>,
) -> Result<Went, RowError>
    ensures { (j : JumpsSpec) → SearchesForm aim at number (loop (rows_view rows.now) (block_view
        body.now)) ways j j met.old met.new result }
{
    let turned = search_turn(alloc, aim, rows, body, at, number)?;
    leave_loop(alloc, aim, body.end, &turned, ways.as_slice(), met)
}

#[cycle(search)]
fn search_switch(
    alloc: Global,
    aim: Aim,
    rows: &[Row],
    arms: &[FlowArm],
    end: u32,
    at: u32,
    number: usize,
    ways: Items<Way>,
    jumps: &mut Jumps,
    met: &mut Items<Seen>,
) -> Result<Went, RowError>
    ensures { SearchesForm aim at number (switch (rows_view rows.now) (arms_view arms.now) end) ways
        jumps.old jumps.new met.old met.new result }
{
    let passed = pass_rows(alloc, aim, rows, at, number, ways, met)?;
    let went = search_arms(
        alloc,
        aim,
        arms,
        at,
        passed.number,
        passed.next.as_slice(),
        jumps,
        met,
    )?;
    arrive(alloc, aim, end, went.number, went.next, met)
}

/// The position of an arm in a choice.
fn case_number(position: usize) -> Result<u8, RowError>
    ensures { MatchResult result (λ n. n ≡ position) (UnfitBy (2 ^ 8 ≤ position)) }
{
    match u8::try_from(position) {
        Ok(number) => Ok(number),
        Err(_) => Err(RowError::Unfit),
    }
}

/// Takes ways into the arm of this position, through its rows.
fn enter_arm(
    alloc: Global,
    aim: Aim,
    position: usize,
    rows: &[Row],
    at: u32,
    number: usize,
    ways: &[Way],
    met: &mut Items<Seen>,
) -> Result<Went, RowError>
    ensures { EntersArm aim at number position (rows_view rows.now) ways.now met.old met.new
        result }
{
    let case = case_number(position)?;
    let picked = chosen(alloc, ways, at, Pick::Case(case))?;
    pass_rows(alloc, aim, rows, at, number, picked, met)
}

/// The arm of this position.
#[cycle(search)]
fn search_arm(
    alloc: Global,
    aim: Aim,
    position: usize,
    arm: &FlowArm,
    at: u32,
    number: usize,
    ways: &[Way],
    jumps: &mut Jumps,
    met: &mut Items<Seen>,
) -> Result<Went, RowError>
    ensures { SearchesArm aim at number position (arm_view arm.now).0 (arm_view arm.now).1 ways.now
        jumps.old jumps.new met.old met.new result }
{
    let rows = arm.rows.as_slice();
    let entered = enter_arm(alloc, aim, position, rows, at, number, ways, met)?;
    search_block(
        alloc,
        aim,
        &arm.body,
        entered.number,
        entered.next,
        jumps,
        met,
    )
}

#[cycle(search)]
fn search_arms(
    alloc: Global,
    aim: Aim,
    arms: &[FlowArm],
    at: u32,
    number: usize,
    ways: &[Way],
    jumps: &mut Jumps,
    met: &mut Items<Seen>,
) -> Result<Went, RowError>
    ensures { SearchesArms aim at number 0 (arms_view arms.now) ways.now jumps.old jumps.new met.old
        met.new result }
{
    let mut next = Items::new(alloc);
    let mut spot = number;
    for position in 0..arms.len() {
        let end = search_arm(
            alloc,
            aim,
            position,
            &arms[position],
            at,
            spot,
            ways,
            jumps,
            met,
        )?;
        join(alloc, &mut next, end.next.as_slice())?;
        spot = end.number;
    }
    Ok(Went { next, number: spot })
}

#[cycle(search)]
fn search_focus(
    alloc: Global,
    aim: Aim,
    rows: &[Row],
    body: &FlowBlock,
    after: &[Row],
    at: u32,
    number: usize,
    ways: Items<Way>,
    met: &mut Items<Seen>,
) -> Result<Went, RowError>
    ensures { (j : JumpsSpec) → SearchesForm aim at number (focus (rows_view rows.now) (block_view
        body.now) (rows_view after.now)) ways j j met.old met.new result }
{
    let passed = pass_rows(alloc, aim, rows, at, number, ways, met)?;
    let mut out = no_jumps(alloc);
    let end = search_block(alloc, aim, body, passed.number, passed.next, &mut out, met)?;
    pass_rows(alloc, aim, after, body.end, end.number, end.next, met)
}

#[cycle(search)]
pub fn search_block(
    alloc: Global,
    aim: Aim,
    block: &FlowBlock,
    number: usize,
    ways: Items<Way>,
    jumps: &mut Jumps,
    met: &mut Items<Seen>,
) -> Result<Went, RowError>
    ensures { SearchesBlock aim number (block_view block.now) ways jumps.old jumps.new met.old
        met.new result }
{
    let end = search_list(alloc, aim, block.stmts.as_slice(), number, ways, jumps, met)?;
    let left = block.bound.as_slice();
    leave(alloc, aim, left, block.end, end.number, end.next, met)
}

#[cycle(search)]
fn search_list(
    alloc: Global,
    aim: Aim,
    stmts: &[FlowStmt],
    number: usize,
    ways: Items<Way>,
    jumps: &mut Jumps,
    met: &mut Items<Seen>,
) -> Result<Went, RowError>
    ensures { SearchesStmts aim number (stmts_view stmts.now) ways jumps.old jumps.new met.old
        met.new result }
{
    let mut next = ways;
    let mut spot = number;
    for s in stmts {
        let went = search_form(alloc, aim, &s.flow, s.at, spot, next, jumps, met)?;
        next = went.next;
        spot = went.number;
    }
    Ok(Went { next, number: spot })
}
