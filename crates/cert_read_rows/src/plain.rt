//! Rows of statements without blocks.

ghost use Rattle.std.specs.Prelude.{◌≡◌, map, option_map, IfOk, [], ◌∷◌, Some, None};
ghost use Rattle.serde_json.specs.View.{view};
ghost use Rattle.vlt_core.specs.Core as core;
ghost use Rattle.cert_rows.specs.Rows.{simple, call, return, jump, set_stmt, input_stmt, print_stmt, put_stmt, new_stmt, become_stmt, release_stmt, drop_stmt, own_stmt, unpack_stmt, build_stmt, call_stmt, swap_stmt, open_stmt, adopt_stmt, return_stmt, jump_stmt};
ghost use Rattle.cert_read_rows.specs.Statements.{plain_of, way_of_tag, owner_of_tag, value_of_tag, object_of_tag, plain_of_tag};

use crate::exprs::expr;
use crate::ids::{one_id, three_ids, two_ids};
use crate::operands::{operand, operand_or_none, operands};
use cert_read_parts::{
    flag, four, id, key_list, number_u8, one, three, two, var_list, var_or_none,
};
use serde_json::Value;
use std::alloc::{AllocError, Global};
use vlt_base::{FnId, Items, KeyId, VarId};
use vlt_core::{Expr, Operand};

/// A row of a statement without blocks.
#[derive(Drop)]
pub enum PlainRow {
    Set(VarId, Expr),
    Input(VarId, bool),
    Print(Expr),
    Put(VarId, u32, Expr),
    New(VarId, Items<Operand>),
    Become(VarId, u8),
    Release(VarId),
    Drop(VarId),
    Own(VarId, Operand),
    Unpack(VarId, VarId),
    Build(VarId, u8, Items<Operand>),
    Call(FnId, Option<VarId>, Items<KeyId>, Items<Operand>),
    Swap(VarId, u32, VarId),
    Open(VarId, Items<VarId>),
    Adopt(VarId, VarId, VarId),
    Return(Option<Operand>),
    Jump(bool),
}

fn set_row(alloc: Global, items: &[Value]) -> Result<Option<PlainRow>, AllocError>
    ensures { IfOk result (λ r. option_map plain_of r
        ≡ option_map (λ x. simple (core.set x.0 x.1)) (set_stmt.of_items (map view items.now))) }
{
    let Some((v, e)) = two(items) else {
        return Ok(None);
    };
    let Some(v) = id(v) else {
        return Ok(None);
    };
    let Some(e) = expr(alloc, e)? else {
        return Ok(None);
    };
    Ok(Some(PlainRow::Set(VarId(v), e)))
}

fn input_row(alloc: Global, items: &[Value]) -> Result<Option<PlainRow>, AllocError>
    ensures { IfOk result (λ r. option_map plain_of r
        ≡ option_map (λ x. simple (core.input x.0 x.1))
        (input_stmt.of_items (map view items.now))) }
{
    let Some((v, more)) = two(items) else {
        return Ok(None);
    };
    let Some(v) = id(v) else {
        return Ok(None);
    };
    let Some(more) = flag(more) else {
        return Ok(None);
    };
    Ok(Some(PlainRow::Input(VarId(v), more)))
}

fn print_row(alloc: Global, items: &[Value]) -> Result<Option<PlainRow>, AllocError>
    ensures { IfOk result (λ r. option_map plain_of r
        ≡ option_map (λ e. simple (core.print e)) (print_stmt.of_items (map view items.now))) }
{
    let Some(e) = one(items) else {
        return Ok(None);
    };
    let Some(e) = expr(alloc, e)? else {
        return Ok(None);
    };
    Ok(Some(PlainRow::Print(e)))
}

fn put_row(alloc: Global, items: &[Value]) -> Result<Option<PlainRow>, AllocError>
    ensures { IfOk result (λ r. option_map plain_of r
        ≡ option_map (λ x. simple (core.put x.0 x.1 x.2))
        (put_stmt.of_items (map view items.now))) }
{
    let Some((x, i, e)) = three(items) else {
        return Ok(None);
    };
    let Some(x) = id(x) else {
        return Ok(None);
    };
    let Some(i) = id(i) else {
        return Ok(None);
    };
    let Some(e) = expr(alloc, e)? else {
        return Ok(None);
    };
    Ok(Some(PlainRow::Put(VarId(x), i, e)))
}

fn new_row(alloc: Global, items: &[Value]) -> Result<Option<PlainRow>, AllocError>
    ensures { IfOk result (λ r. option_map plain_of r
        ≡ option_map (λ x. simple (core.make x.0 x.1))
        (new_stmt.of_items (map view items.now))) }
{
    let Some((x, args)) = two(items) else {
        return Ok(None);
    };
    let Some(x) = id(x) else {
        return Ok(None);
    };
    let Some(args) = operands(alloc, args)? else {
        return Ok(None);
    };
    Ok(Some(PlainRow::New(VarId(x), args)))
}

fn become_row(alloc: Global, items: &[Value]) -> Result<Option<PlainRow>, AllocError>
    ensures { IfOk result (λ r. option_map plain_of r
        ≡ option_map (λ x. simple (core.become x.0 x.1))
        (become_stmt.of_items (map view items.now))) }
{
    let Some((x, state)) = two(items) else {
        return Ok(None);
    };
    let Some(x) = id(x) else {
        return Ok(None);
    };
    let Some(state) = number_u8(state, 255) else {
        return Ok(None);
    };
    Ok(Some(PlainRow::Become(VarId(x), state)))
}

fn release_row(items: &[Value]) -> Option<PlainRow>
    ensures { option_map plain_of result
        ≡ option_map (λ x. simple (core.release x))
        (release_stmt.of_items (map view items.now)) }
{
    let x = one_id(items)?;
    Some(PlainRow::Release(VarId(x)))
}

fn drop_row(items: &[Value]) -> Option<PlainRow>
    ensures { option_map plain_of result
        ≡ option_map (λ v. simple (core.drop v)) (drop_stmt.of_items (map view items.now)) }
{
    let v = one_id(items)?;
    Some(PlainRow::Drop(VarId(v)))
}

fn own_row(alloc: Global, items: &[Value]) -> Result<Option<PlainRow>, AllocError>
    ensures { IfOk result (λ r. option_map plain_of r
        ≡ option_map (λ x. simple (core.own x.0 x.1)) (own_stmt.of_items (map view items.now))) }
{
    let Some((v, value)) = two(items) else {
        return Ok(None);
    };
    let Some(v) = id(v) else {
        return Ok(None);
    };
    let Some(value) = operand(alloc, value)? else {
        return Ok(None);
    };
    Ok(Some(PlainRow::Own(VarId(v), value)))
}

fn unpack_row(items: &[Value]) -> Option<PlainRow>
    ensures { option_map plain_of result
        ≡ option_map (λ x. simple (core.unpack x.0 x.1))
        (unpack_stmt.of_items (map view items.now)) }
{
    let (x, v) = two_ids(items)?;
    Some(PlainRow::Unpack(VarId(x), VarId(v)))
}

fn build_row(alloc: Global, items: &[Value]) -> Result<Option<PlainRow>, AllocError>
    ensures { IfOk result (λ r. option_map plain_of r
        ≡ option_map (λ x. simple (core.build x.0 x.1 x.2))
        (build_stmt.of_items (map view items.now))) }
{
    let Some((v, case, args)) = three(items) else {
        return Ok(None);
    };
    let Some(v) = id(v) else {
        return Ok(None);
    };
    let Some(case) = number_u8(case, 255) else {
        return Ok(None);
    };
    let Some(args) = operands(alloc, args)? else {
        return Ok(None);
    };
    Ok(Some(PlainRow::Build(VarId(v), case, args)))
}

fn call_row(alloc: Global, items: &[Value]) -> Result<Option<PlainRow>, AllocError>
    ensures { IfOk result (λ r. option_map plain_of r
        ≡ option_map (λ x. call x.0 x.1 x.2 x.3) (call_stmt.of_items (map view items.now))) }
{
    let Some((f, target, keys, args)) = four(items) else {
        return Ok(None);
    };
    let Some(f) = id(f) else {
        return Ok(None);
    };
    let Some(target) = var_or_none(target) else {
        return Ok(None);
    };
    let Some(keys) = key_list(alloc, keys)? else {
        return Ok(None);
    };
    let Some(args) = operands(alloc, args)? else {
        return Ok(None);
    };
    Ok(Some(PlainRow::Call(FnId(f), target, keys, args)))
}

fn swap_row(items: &[Value]) -> Option<PlainRow>
    ensures { option_map plain_of result
        ≡ option_map (λ x. simple (core.swap x.0 x.1 x.2))
        (swap_stmt.of_items (map view items.now)) }
{
    let (x, i, v) = three_ids(items)?;
    Some(PlainRow::Swap(VarId(x), i, VarId(v)))
}

fn open_row(alloc: Global, items: &[Value]) -> Result<Option<PlainRow>, AllocError>
    ensures { IfOk result (λ r. option_map plain_of r
        ≡ option_map (λ x. simple (core.open_into x.0 x.1))
        (open_stmt.of_items (map view items.now))) }
{
    let Some((x, into)) = two(items) else {
        return Ok(None);
    };
    let Some(x) = id(x) else {
        return Ok(None);
    };
    let Some(into) = var_list(alloc, into)? else {
        return Ok(None);
    };
    Ok(Some(PlainRow::Open(VarId(x), into)))
}

fn adopt_row(items: &[Value]) -> Option<PlainRow>
    ensures { option_map plain_of result
        ≡ option_map (λ x. simple (core.adopt x.0 x.1 x.2))
        (adopt_stmt.of_items (map view items.now)) }
{
    let (y, x, r) = three_ids(items)?;
    Some(PlainRow::Adopt(VarId(y), VarId(x), VarId(r)))
}

fn return_row(alloc: Global, items: &[Value]) -> Result<Option<PlainRow>, AllocError>
    ensures { IfOk result (λ r. option_map plain_of r
        ≡ option_map return (return_stmt.of_items (map view items.now))) }
{
    let Some(value) = one(items) else {
        return Ok(None);
    };
    let Some(value) = operand_or_none(alloc, value)? else {
        return Ok(None);
    };
    Ok(Some(PlainRow::Return(value)))
}

fn jump_row(alloc: Global, items: &[Value]) -> Result<Option<PlainRow>, AllocError>
    ensures { IfOk result (λ r. option_map plain_of r
        ≡ option_map jump (jump_stmt.of_items (map view items.now))) }
{
    let Some(continues) = one(items) else {
        return Ok(None);
    };
    let Some(continues) = flag(continues) else {
        return Ok(None);
    };
    Ok(Some(PlainRow::Jump(continues)))
}

fn way_row(alloc: Global, tag: &str, items: &[Value]) -> Result<Option<PlainRow>, AllocError>
    ensures { IfOk result (λ r. option_map plain_of r
        ≡ way_of_tag tag.now (map view items.now)) }
{
    if tag == "call" {
        return call_row(alloc, items);
    }
    if tag == "return" {
        return return_row(alloc, items);
    }
    if tag == "jump" {
        return jump_row(alloc, items);
    }
    Ok(None)
}

fn owner_row(alloc: Global, tag: &str, items: &[Value]) -> Result<Option<PlainRow>, AllocError>
    ensures { IfOk result (λ r. option_map plain_of r
        ≡ owner_of_tag tag.now (map view items.now)) }
{
    if tag == "swap" {
        return Ok(swap_row(items));
    }
    if tag == "open" {
        return open_row(alloc, items);
    }
    if tag == "adopt" {
        return Ok(adopt_row(items));
    }
    way_row(alloc, tag, items)
}

fn value_row(alloc: Global, tag: &str, items: &[Value]) -> Result<Option<PlainRow>, AllocError>
    ensures { IfOk result (λ r. option_map plain_of r
        ≡ value_of_tag tag.now (map view items.now)) }
{
    if tag == "own" {
        return own_row(alloc, items);
    }
    if tag == "unpack" {
        return Ok(unpack_row(items));
    }
    if tag == "build" {
        return build_row(alloc, items);
    }
    owner_row(alloc, tag, items)
}

fn object_row(alloc: Global, tag: &str, items: &[Value]) -> Result<Option<PlainRow>, AllocError>
    ensures { IfOk result (λ r. option_map plain_of r
        ≡ object_of_tag tag.now (map view items.now)) }
{
    if tag == "new" {
        return new_row(alloc, items);
    }
    if tag == "become" {
        return become_row(alloc, items);
    }
    if tag == "release" {
        return Ok(release_row(items));
    }
    if tag == "drop" {
        return Ok(drop_row(items));
    }
    value_row(alloc, tag, items)
}

pub(crate) fn plain_row(
    alloc: Global,
    tag: &str,
    items: &[Value],
) -> Result<Option<PlainRow>, AllocError>
    ensures { IfOk result (λ r. option_map plain_of r
        ≡ plain_of_tag tag.now (map view items.now)) }
{
    if tag == "set" {
        return set_row(alloc, items);
    }
    if tag == "input" {
        return input_row(alloc, items);
    }
    if tag == "print" {
        return print_row(alloc, items);
    }
    if tag == "put" {
        return put_row(alloc, items);
    }
    object_row(alloc, tag, items)
}
