//! Rows of statements with blocks, which say how many statements each block has.

ghost use Rattle.std.specs.Prelude.{◌≡◌, map, option_map, IfOk, [], ◌∷◌, Some, None};
ghost use Rattle.serde_json.specs.View.{view};
ghost use Rattle.vlt_core.specs.View.{expr_of};
ghost use Rattle.cert_rows.specs.Expressions as s;
ghost use Rattle.cert_rows.specs.Rows.{choose, loop, switch, focus, scope, if_stmt, while_stmt, switch_stmt, focus_stmt, scope_stmt};
ghost use Rattle.cert_read_rows.specs.Statements.{block_of, block_of_tag};

use crate::exprs::expr;
use crate::heads::{ArmHead, Head, arm_heads, block_head};
use crate::maps::{maps, maps_or_none};
use cert_read_parts::{four, id, one, three};
use serde_json::Value;
use std::alloc::{AllocError, Global};
use vlt_base::{Boxed, Items, VarId};
use vlt_core::{Expr, TokMap};

/// An `if` with the maps after it, one for each instance; `None` stands for 0.
#[derive(Drop)]
pub struct IfRow {
    pub cond: Boxed<Expr>,
    pub then_block: Head,
    pub else_block: Head,
    pub maps: Option<Items<TokMap>>,
}

/// A `while` with the maps at its head and those after it.
#[derive(Drop)]
pub struct WhileRow {
    pub cond: Boxed<Expr>,
    pub body: Head,
    pub around: Items<TokMap>,
    pub exit: Items<TokMap>,
}

/// A `switch` with the maps after it; `None` stands for 0.
#[derive(Drop)]
pub struct SwitchRow {
    pub v: VarId,
    pub arms: Items<ArmHead>,
    pub maps: Option<Items<TokMap>>,
}

#[derive(Drop)]
pub struct FocusRow {
    pub y: VarId,
    pub z: VarId,
    pub body: Head,
}

/// A row of a statement with blocks.
#[derive(Drop)]
pub enum BlockRow {
    If(IfRow),
    While(WhileRow),
    Switch(SwitchRow),
    Focus(FocusRow),
    Scope(Head),
}

/// An expression in a box, which costs less to hold.
fn condition(alloc: Global, v: &Value) -> Result<Option<Boxed<Expr>>, AllocError>
    ensures { IfOk result (λ r. option_map expr_of r ≡ s.expr.of_data (view v.now)) }
{
    match expr(alloc, v)? {
        Some(e) => Ok(Some(Boxed::new(alloc, e)?)),
        None => Ok(None),
    }
}

fn if_row(
    alloc: Global,
    instances: Option<u32>,
    items: &[Value],
) -> Result<Option<BlockRow>, AllocError>
    ensures { IfOk result (λ r. option_map block_of r
        ≡ option_map (λ x. choose x.0 x.1 x.2 x.3)
        ((if_stmt instances).of_items (map view items.now))) }
{
    let Some((cond, then_block, else_block, maps)) = four(items) else {
        return Ok(None);
    };
    let Some(cond) = condition(alloc, cond)? else {
        return Ok(None);
    };
    let Some(then_block) = block_head(alloc, then_block)? else {
        return Ok(None);
    };
    let Some(else_block) = block_head(alloc, else_block)? else {
        return Ok(None);
    };
    let Some(maps) = maps_or_none(alloc, instances, maps)? else {
        return Ok(None);
    };
    Ok(Some(BlockRow::If(IfRow {
        cond,
        then_block,
        else_block,
        maps,
    })))
}

fn while_row(
    alloc: Global,
    instances: Option<u32>,
    items: &[Value],
) -> Result<Option<BlockRow>, AllocError>
    ensures { IfOk result (λ r. option_map block_of r
        ≡ option_map (λ x. loop x.0 x.1 x.2 x.3)
        ((while_stmt instances).of_items (map view items.now))) }
{
    let Some((cond, body, around, exit)) = four(items) else {
        return Ok(None);
    };
    let Some(cond) = condition(alloc, cond)? else {
        return Ok(None);
    };
    let Some(body) = block_head(alloc, body)? else {
        return Ok(None);
    };
    let Some(around) = maps(alloc, instances, around)? else {
        return Ok(None);
    };
    let Some(exit) = maps(alloc, instances, exit)? else {
        return Ok(None);
    };
    Ok(Some(BlockRow::While(WhileRow {
        cond,
        body,
        around,
        exit,
    })))
}

fn switch_row(
    alloc: Global,
    instances: Option<u32>,
    items: &[Value],
) -> Result<Option<BlockRow>, AllocError>
    ensures { IfOk result (λ r. option_map block_of r
        ≡ option_map (λ x. switch x.0 x.1 x.2)
        ((switch_stmt instances).of_items (map view items.now))) }
{
    let Some((v, arms, maps)) = three(items) else {
        return Ok(None);
    };
    let Some(v) = id(v) else {
        return Ok(None);
    };
    let Some(arms) = arm_heads(alloc, arms)? else {
        return Ok(None);
    };
    let Some(maps) = maps_or_none(alloc, instances, maps)? else {
        return Ok(None);
    };
    let v = VarId(v);
    Ok(Some(BlockRow::Switch(SwitchRow { v, arms, maps })))
}

fn focus_row(alloc: Global, items: &[Value]) -> Result<Option<BlockRow>, AllocError>
    ensures { IfOk result (λ r. option_map block_of r
        ≡ option_map (λ x. focus x.0 x.1 x.2) (focus_stmt.of_items (map view items.now))) }
{
    let Some((y, z, body)) = three(items) else {
        return Ok(None);
    };
    let Some(y) = id(y) else {
        return Ok(None);
    };
    let Some(z) = id(z) else {
        return Ok(None);
    };
    let Some(body) = block_head(alloc, body)? else {
        return Ok(None);
    };
    let (y, z) = (VarId(y), VarId(z));
    Ok(Some(BlockRow::Focus(FocusRow { y, z, body })))
}

fn scope_row(alloc: Global, items: &[Value]) -> Result<Option<BlockRow>, AllocError>
    ensures { IfOk result (λ r. option_map block_of r
        ≡ option_map scope (scope_stmt.of_items (map view items.now))) }
{
    let Some(body) = one(items) else {
        return Ok(None);
    };
    let Some(body) = block_head(alloc, body)? else {
        return Ok(None);
    };
    Ok(Some(BlockRow::Scope(body)))
}

pub(crate) fn block_row(
    alloc: Global,
    instances: Option<u32>,
    tag: &str,
    items: &[Value],
) -> Result<Option<BlockRow>, AllocError>
    ensures { IfOk result (λ r. option_map block_of r
        ≡ block_of_tag instances tag.now (map view items.now)) }
{
    if tag == "if" {
        return if_row(alloc, instances, items);
    }
    if tag == "while" {
        return while_row(alloc, instances, items);
    }
    if tag == "switch" {
        return switch_row(alloc, instances, items);
    }
    if tag == "focus" {
        return focus_row(alloc, items);
    }
    if tag == "scope" {
        return scope_row(alloc, items);
    }
    Ok(None)
}
