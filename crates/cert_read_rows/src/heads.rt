//! Heads of blocks, and of the arms of a switch.

ghost use Rattle.std.specs.Prelude.{◌≡◌, map, option_map, IfOk, [], ◌∷◌, Some, None};
ghost use Rattle.serde_json.specs.View.{view};
ghost use Rattle.cert_rows.specs.Parts.{each_in, several};
ghost use Rattle.cert_rows.specs.Rows as s;
ghost use Rattle.cert_read_rows.specs.Heads.{head_of, arm_of};

use cert_read_parts::{array, four, id, number_u8, token_list, two, var_list};
use serde_json::Value;
use std::alloc::{AllocError, Global};
use vlt_base::{Items, VarId};
use vlt_core::Tok;

/// How many statements a block has, and the tokens bound in it.
#[derive(Drop)]
pub struct Head {
    pub count: u32,
    pub bound: Items<Tok>,
}

/// The case, the variables that take its payloads, and the head of the block.
#[derive(Drop)]
pub struct ArmHead {
    pub case: u8,
    pub vars: Items<VarId>,
    pub count: u32,
    pub bound: Items<Tok>,
}

pub(crate) fn block_head(alloc: Global, v: &Value) -> Result<Option<Head>, AllocError>
    ensures { IfOk result (λ r. option_map head_of r ≡ s.head.of_data (view v.now)) }
{
    let Some(items) = array(v) else {
        return Ok(None);
    };
    let Some((count, bound)) = two(items) else {
        return Ok(None);
    };
    let Some(count) = id(count) else {
        return Ok(None);
    };
    let Some(bound) = token_list(alloc, bound)? else {
        return Ok(None);
    };
    Ok(Some(Head { count, bound }))
}

fn arm_head(alloc: Global, v: &Value) -> Result<Option<ArmHead>, AllocError>
    ensures { IfOk result (λ r. option_map arm_of r ≡ s.arm.of_data (view v.now)) }
{
    let Some(items) = array(v) else {
        return Ok(None);
    };
    let Some((case, vars, count, bound)) = four(items) else {
        return Ok(None);
    };
    let Some(case) = number_u8(case, 255) else {
        return Ok(None);
    };
    let Some(vars) = var_list(alloc, vars)? else {
        return Ok(None);
    };
    let Some(count) = id(count) else {
        return Ok(None);
    };
    let Some(bound) = token_list(alloc, bound)? else {
        return Ok(None);
    };
    Ok(Some(ArmHead {
        case,
        vars,
        count,
        bound,
    }))
}

fn each_arm(alloc: Global, items: &[Value]) -> Result<Option<Items<ArmHead>>, AllocError>
    ensures { IfOk result (λ r. option_map (map arm_of) r
        ≡ each_in s.arm.of_data (map view items.now)) }
{
    let mut out = Items::new(alloc);
    for v in items {
        let Some(a) = arm_head(alloc, v)? else {
            return Ok(None);
        };
        out.push(a)?;
    }
    Ok(Some(out))
}

pub(crate) fn arm_heads(alloc: Global, v: &Value) -> Result<Option<Items<ArmHead>>, AllocError>
    ensures { IfOk result (λ r. option_map (map arm_of) r
        ≡ (several s.arm).of_data (view v.now)) }
{
    let Some(items) = array(v) else {
        return Ok(None);
    };
    each_arm(alloc, items)
}
