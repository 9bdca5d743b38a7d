//! Statements of rows, as far as the rows go.

ghost use Rattle.std.specs.Prelude.{◌≡◌, ◌≤◌, ◌<◌, ◌==◌, length, map, option_map, IfOk, None, false};
ghost use Rattle.vlt_core.specs.HeldView.{toks_of};
ghost use Rattle.cert_format.specs.Drafts as s;
ghost use Rattle.cert_format.specs.Endings.{row_ending};
ghost use Rattle.cert_read_rows.specs.Heads.{head_of, arm_of};
ghost use Rattle.cert_read_rows.specs.Statements.{plain_of, block_of as block_row_of, stmt_of};
ghost use Rattle.cert_read_parts.specs.Endings.{ending_of};
ghost use Rattle.cert_read_bodies.specs.Tree.{block_of, drafts_of};
ghost use Rattle.cert_read_bodies.specs.Reads.{ReadsDraft, ReadsBlock, ReadsSecond, ReadsArms, HasArmsDepth, IsPlainDraft, Stands, rest_at, first_at};

use crate::tree::{Arm, Block, Draft};
use cert_read_parts::{Ending, at_odds, both, cut_ending, or_else};
use cert_read_rows::{
    ArmHead, BlockRow, FocusRow, Head, IfRow, PlainRow, StmtRow, SwitchRow, WhileRow, stmt_row,
};
use serde_json::Value;
use std::alloc::{AllocError, Global};
use vlt_base::{Boxed, Items};
use vlt_core::Tok;

/// A statement, the row after it, whether all its blocks are there, whether it ends, and the first row that has 0 or maps
/// against that.
#[derive(Drop)]
pub struct ReadDraft {
    pub draft: Draft,
    pub at: usize,
    pub whole: bool,
    pub ends: Ending,
    pub wrong: Option<usize>,
}

/// The same of a block.
#[derive(Drop)]
pub struct ReadBlock {
    pub block: Block,
    pub at: usize,
    pub whole: bool,
    pub ends: Ending,
    pub wrong: Option<usize>,
}

/// The same of the arms of a switch.
#[derive(Drop)]
pub struct ReadArms {
    pub arms: Items<Arm>,
    pub at: usize,
    pub whole: bool,
    pub ends: Ending,
    pub wrong: Option<usize>,
}

/// The depth of the blocks of arms; none where it is beyond the limit.
fn arms_depth(deep: u8, heads: &[ArmHead]) -> Option<u8>
    requires { deep ≤ 64 }
    ensures { HasArmsDepth deep (map arm_of heads.now) result }
{
    match heads {
        [] => Some(if deep < 64 { deep + 1 } else { 64 }),
        _ => { if deep < 64 { Some(deep + 1) } else { None } }
    }
}

fn row_ending(row: &PlainRow) -> Ending
    ensures { ending_of result ≡ row_ending (plain_of row.now) }
{
    match row {
        PlainRow::Return(_) => Ending::Sure,
        PlainRow::Jump(_) => Ending::Sure,
        _ => Ending::Never,
    }
}

fn row_at(
    alloc: Global,
    instances: Option<u32>,
    rows: &[Value],
    at: usize,
) -> Result<Option<StmtRow>, AllocError>
    ensures { IfOk result (λ r. option_map stmt_of r
        ≡ first_at (rest_at instances rows.now at)) }
{
    match rows.get(at) {
        Some(v) => stmt_row(alloc, instances, v),
        None => Ok(None),
    }
}

fn plain_draft(row: Boxed<PlainRow>, at: usize) -> ReadDraft
    requires { at < 18446744073709551615 }
    ensures { IsPlainDraft at (plain_of row) result }
{
    let ends = row_ending(row.get());
    ReadDraft {
        draft: Draft::Plain(row),
        at: at + 1,
        whole: true,
        ends,
        wrong: None,
    }
}

/// The statement whose row stands at `at`, or None where no statement's row stands there that may stand so deep.
#[cycle(read)]
pub fn read_draft(
    alloc: Global,
    instances: Option<u32>,
    rows: &[Value],
    at: usize,
    deep: u8,
) -> Result<Option<ReadDraft>, AllocError>
    requires there { at ≤ length rows.now }
    requires within { deep ≤ 64 }
    ensures { IfOk result (ReadsDraft instances at deep rows.now) }
{
    if at >= rows.len() {
        return Ok(None);
    }
    match row_at(alloc, instances, rows, at)? {
        None => Ok(None),
        Some(StmtRow::Plain(row)) => Ok(Some(plain_draft(row, at))),
        Some(StmtRow::Block(BlockRow::If(row))) => read_if(alloc, instances, rows, at, deep, row),
        Some(StmtRow::Block(BlockRow::While(row))) => {
            read_while(alloc, instances, rows, at, deep, row)
        }
        Some(StmtRow::Block(BlockRow::Switch(row))) => {
            read_switch(alloc, instances, rows, at, deep, row)
        }
        Some(StmtRow::Block(BlockRow::Focus(row))) => {
            read_focus(alloc, instances, rows, at, deep, row)
        }
        Some(StmtRow::Block(BlockRow::Scope(body))) => {
            read_scope(alloc, instances, rows, at, deep, body)
        }
    }
}

#[cycle(read)]
fn read_if(
    alloc: Global,
    instances: Option<u32>,
    rows: &[Value],
    at: usize,
    deep: u8,
    row: IfRow,
) -> Result<Option<ReadDraft>, AllocError>
    requires there { Stands instances rows.now at (block_row_of (BlockRow.If row)) }
    requires within { deep ≤ 64 }
    ensures { IfOk result (ReadsDraft instances at deep rows.now) }
{
    if deep >= 64 {
        return Ok(None);
    }
    let IfRow {
        cond,
        then_block,
        else_block,
        maps,
    } = row;
    let yes = read_block(alloc, instances, rows, at + 1, deep + 1, then_block)?;
    let no = read_second(
        alloc,
        instances,
        rows,
        yes.at,
        deep + 1,
        else_block,
        yes.whole,
    )?;
    let ends = both(yes.ends, no.ends);
    let inside = or_else(yes.wrong, no.wrong);
    let wrong = at_odds(ends, &maps, at, inside);
    Ok(Some(ReadDraft {
        draft: Draft::If(cond, yes.block, no.block, maps),
        at: no.at,
        whole: no.whole,
        ends,
        wrong,
    }))
}

#[cycle(read)]
fn read_while(
    alloc: Global,
    instances: Option<u32>,
    rows: &[Value],
    at: usize,
    deep: u8,
    row: WhileRow,
) -> Result<Option<ReadDraft>, AllocError>
    requires there { Stands instances rows.now at (block_row_of (BlockRow.While row)) }
    requires within { deep ≤ 64 }
    ensures { IfOk result (ReadsDraft instances at deep rows.now) }
{
    if deep >= 64 {
        return Ok(None);
    }
    let WhileRow {
        cond,
        body: head,
        around,
        exit,
    } = row;
    let body = read_block(alloc, instances, rows, at + 1, deep + 1, head)?;
    Ok(Some(ReadDraft {
        draft: Draft::While(cond, body.block, around, exit),
        at: body.at,
        whole: body.whole,
        ends: Ending::Never,
        wrong: body.wrong,
    }))
}

#[cycle(read)]
fn read_switch(
    alloc: Global,
    instances: Option<u32>,
    rows: &[Value],
    at: usize,
    deep: u8,
    row: SwitchRow,
) -> Result<Option<ReadDraft>, AllocError>
    requires there { Stands instances rows.now at (block_row_of (BlockRow.Switch row)) }
    requires within { deep ≤ 64 }
    ensures { IfOk result (ReadsDraft instances at deep rows.now) }
{
    let Some(inner) = arms_depth(deep, row.arms.as_slice()) else {
        return Ok(None);
    };
    let arms = read_arms(alloc, instances, rows, at + 1, inner, row.arms.as_slice())?;
    let wrong = at_odds(arms.ends, &row.maps, at, arms.wrong);
    Ok(Some(ReadDraft {
        draft: Draft::Switch(row.v, arms.arms, row.maps),
        at: arms.at,
        whole: arms.whole,
        ends: arms.ends,
        wrong,
    }))
}

#[cycle(read)]
fn read_focus(
    alloc: Global,
    instances: Option<u32>,
    rows: &[Value],
    at: usize,
    deep: u8,
    row: FocusRow,
) -> Result<Option<ReadDraft>, AllocError>
    requires there { Stands instances rows.now at (block_row_of (BlockRow.Focus row)) }
    requires within { deep ≤ 64 }
    ensures { IfOk result (ReadsDraft instances at deep rows.now) }
{
    if deep >= 64 {
        return Ok(None);
    }
    let body = read_block(alloc, instances, rows, at + 1, deep + 1, row.body)?;
    Ok(Some(ReadDraft {
        draft: Draft::Focus(row.y, row.z, body.block),
        at: body.at,
        whole: body.whole,
        ends: Ending::Never,
        wrong: body.wrong,
    }))
}

#[cycle(read)]
fn read_scope(
    alloc: Global,
    instances: Option<u32>,
    rows: &[Value],
    at: usize,
    deep: u8,
    head: Head,
) -> Result<Option<ReadDraft>, AllocError>
    requires there { Stands instances rows.now at (block_row_of (BlockRow.Scope head)) }
    requires within { deep ≤ 64 }
    ensures { IfOk result (ReadsDraft instances at deep rows.now) }
{
    if deep >= 64 {
        return Ok(None);
    }
    let body = read_block(alloc, instances, rows, at + 1, deep + 1, head)?;
    Ok(Some(ReadDraft {
        draft: Draft::Scope(body.block),
        at: body.at,
        whole: body.whole,
        ends: body.ends,
        wrong: body.wrong,
    }))
}

/// The block after another one. Where that breaks off nothing of this one is there.
#[cycle(read)]
fn read_second(
    alloc: Global,
    instances: Option<u32>,
    rows: &[Value],
    at: usize,
    deep: u8,
    head: Head,
    is_there: bool,
) -> Result<ReadBlock, AllocError>
    requires there { at ≤ length rows.now }
    requires within { deep ≤ 64 }
    ensures { IfOk result (ReadsSecond instances at deep rows.now (head_of head) is_there) }
{
    if is_there {
        return read_block(alloc, instances, rows, at, deep, head);
    }
    let Head { count, bound } = head;
    let ends = if count == 0 {
        Ending::Never
    } else {
        Ending::Unsure
    };
    Ok(ReadBlock {
        block: Block {
            count,
            bound,
            stmts: Items::new(alloc),
        },
        at,
        whole: false,
        ends,
        wrong: None,
    })
}

/// A block that breaks off after these statements.
#[tactic(auto, using(crate::proofs::Views::block_parts))]
fn part_of_block(
    count: u32,
    bound: Items<Tok>,
    stmts: Items<Draft>,
    at: usize,
    ends: Ending,
    wrong: Option<usize>,
) -> ReadBlock
    ensures block { block_of result.block ≡ s.block count (toks_of bound) (drafts_of stmts) }
    ensures at { result.at ≡ at }
    ensures part { result.whole ≡ false }
    ensures ends { result.ends ≡ ends }
    ensures wrong { result.wrong ≡ wrong }
{
    ReadBlock {
        block: Block {
            count,
            bound,
            stmts,
        },
        at,
        whole: false,
        ends,
        wrong,
    }
}

/// The statements of a block, as far as their rows go.
#[cycle(read)]
pub fn read_block(
    alloc: Global,
    instances: Option<u32>,
    rows: &[Value],
    at: usize,
    deep: u8,
    head: Head,
) -> Result<ReadBlock, AllocError>
    requires there { at ≤ length rows.now }
    requires within { deep ≤ 64 }
    ensures { IfOk result (ReadsBlock instances at deep rows.now (head_of head)) }
{
    let Head { count, bound } = head;
    let mut stmts = Items::new(alloc);
    let mut at = at;
    let mut ends = Ending::Never;
    let mut wrong = None;
    for i in 0..count {
        match read_draft(alloc, instances, rows, at, deep)? {
            Some(read) => {
                stmts.push(read.draft)?;
                at = read.at;
                ends = read.ends;
                wrong = or_else(wrong, read.wrong);
                if !read.whole {
                    let ends = cut_ending(i + 1 == count, ends);
                    return Ok(part_of_block(count, bound, stmts, at, ends, wrong));
                }
            }
            None => {
                return Ok(part_of_block(count, bound, stmts, at, Ending::Unsure, wrong));
            }
        }
    }
    let block = Block {
        count,
        bound,
        stmts,
    };
    Ok(ReadBlock {
        block,
        at,
        whole: true,
        ends,
        wrong,
    })
}

/// The blocks of arms, as far as their rows go. After one that breaks off nothing of the others is there.
#[cycle(read)]
fn read_arms(
    alloc: Global,
    instances: Option<u32>,
    rows: &[Value],
    at: usize,
    deep: u8,
    heads: &[ArmHead],
) -> Result<ReadArms, AllocError>
    requires there { at ≤ length rows.now }
    requires within { deep ≤ 64 }
    ensures { IfOk result (ReadsArms instances at deep rows.now (map arm_of heads.now)) }
{
    let mut arms = Items::new(alloc);
    let mut at = at;
    let mut ends = Ending::Sure;
    let mut wrong = None;
    let mut whole = true;
    for head in heads {
        let block_head = Head {
            count: head.count,
            bound: Items::from_slice(alloc, head.bound.as_slice())?,
        };
        let block = read_second(alloc, instances, rows, at, deep, block_head, whole)?;
        arms.push(Arm {
            case: head.case,
            vars: Items::from_slice(alloc, head.vars.as_slice())?,
            body: block.block,
        })?;
        at = block.at;
        ends = both(ends, block.ends);
        wrong = or_else(wrong, block.wrong);
        whole = block.whole;
    }
    Ok(ReadArms {
        arms,
        at,
        whole,
        ends,
        wrong,
    })
}
