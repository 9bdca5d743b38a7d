//! Operands of statements.

ghost use Rattle.std.specs.Prelude.{◌≡◌, map, option_map, IfOk, [], Some, None};
ghost use Rattle.serde_json.specs.View.{view};
ghost use Rattle.vlt_core.specs.Core as core;
ghost use Rattle.vlt_core.specs.View.{operand_of};
ghost use Rattle.cert_rows.specs.Parts.{each_in, single, pair, several, zero_or};
ghost use Rattle.cert_rows.specs.Values.{id, mask};
ghost use Rattle.cert_rows.specs.Expressions as s;
ghost use Rattle.cert_rows.specs.Expressions.{operand_of_tag};

use crate::exprs::expr;
use crate::ids::one_id;
use cert_read_parts::{array, id, mask, number, one, text, two};
use serde_json::Value;
use std::alloc::{AllocError, Global};
use vlt_base::{Items, VarId};
use vlt_core::Operand;

fn pure_operand(alloc: Global, items: &[Value]) -> Result<Option<Operand>, AllocError>
    ensures { IfOk result (λ r. option_map operand_of r
        ≡ option_map core.pure ((single s.expr).of_items (map view items.now))) }
{
    let Some(v) = one(items) else {
        return Ok(None);
    };
    match expr(alloc, v)? {
        Some(e) => Ok(Some(Operand::Pure(e))),
        None => Ok(None),
    }
}

fn move_operand(items: &[Value]) -> Option<Operand>
    ensures { option_map operand_of result
        ≡ option_map core.move ((single id).of_items (map view items.now)) }
{
    let v = one_id(items)?;
    Some(Operand::Move(VarId(v)))
}

fn pack_operand(items: &[Value]) -> Option<Operand>
    ensures { option_map operand_of result
        ≡ option_map (λ x. core.pack x.0 x.1) ((pair id mask).of_items (map view items.now)) }
{
    let (x, states) = two(items)?;
    let x = id(x)?;
    let states = mask(states)?;
    Some(Operand::Pack(VarId(x), states))
}

fn operand_of_tag(alloc: Global, tag: &str, items: &[Value]) -> Result<Option<Operand>, AllocError>
    ensures { IfOk result (λ r. option_map operand_of r
        ≡ operand_of_tag tag.now (map view items.now)) }
{
    if tag == "e" {
        return pure_operand(alloc, items);
    }
    if tag == "m" {
        return Ok(move_operand(items));
    }
    if tag == "p" {
        return Ok(pack_operand(items));
    }
    Ok(None)
}

pub(crate) fn operand(alloc: Global, v: &Value) -> Result<Option<Operand>, AllocError>
    ensures { IfOk result (λ r. option_map operand_of r ≡ s.operand.of_data (view v.now)) }
{
    let Some(items) = array(v) else {
        return Ok(None);
    };
    match items {
        [] => Ok(None),
        [t, rest @ ..] => match text(t) {
            Some(tag) => operand_of_tag(alloc, tag, rest),
            None => Ok(None),
        },
    }
}

fn each_operand(alloc: Global, items: &[Value]) -> Result<Option<Items<Operand>>, AllocError>
    ensures { IfOk result (λ r. option_map (map operand_of) r
        ≡ each_in s.operand.of_data (map view items.now)) }
{
    let mut out = Items::new(alloc);
    for v in items {
        let Some(o) = operand(alloc, v)? else {
            return Ok(None);
        };
        out.push(o)?;
    }
    Ok(Some(out))
}

pub(crate) fn operands(alloc: Global, v: &Value) -> Result<Option<Items<Operand>>, AllocError>
    ensures { IfOk result (λ r. option_map (map operand_of) r
        ≡ (several s.operand).of_data (view v.now)) }
{
    let Some(items) = array(v) else {
        return Ok(None);
    };
    each_operand(alloc, items)
}

/// An operand, or 0 in its place.
#[tactic(auto, using(cert_read_parts::proofs::Signs::zero_is_read))]
pub(crate) fn operand_or_none(
    alloc: Global,
    v: &Value,
) -> Result<Option<Option<Operand>>, AllocError>
    ensures { IfOk result (λ r. option_map (option_map operand_of) r
        ≡ (zero_or s.operand).of_data (view v.now)) }
{
    if v.is_number() {
        return match number(v, 0) {
            Some(n) => Ok(Some(None)),
            None => Ok(None),
        };
    }
    match operand(alloc, v)? {
        Some(o) => Ok(Some(Some(o))),
        None => Ok(None),
    }
}
