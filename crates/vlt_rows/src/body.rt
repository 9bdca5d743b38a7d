//! The flow of a body in an instance of its function.

ghost use Rattle.std.specs.Prelude.{◌≡◌, ◌<◌, ◌^◌, ◌++◌, ◌∷◌, [], if◌then◌else◌, length, map, filter, IfOk, OnOk, MatchResult};
ghost use Rattle.std.specs.List.{list_any, range_with_len};
ghost use Rattle.vlt_core.specs.Core.{a_key};
ghost use Rattle.vlt_core.specs.Bodies.{flow_of, flow_of_block, flow_of_stmts, flow_of_arms};
ghost use Rattle.vlt_core.specs.Maps.{is_tok};
ghost use Rattle.vlt_core.specs.View.{func_of, tok_of, form_of, block_of, stmts_of, arms_of};
ghost use Rattle.vlt_core.specs.HeldView.{toks_of};
ghost use Rattle.vlt_core.specs.Rows.{tokens_of};
ghost use Rattle.vlt_rows.specs.Unfit.{UnfitBy, HasManyTokens};
ghost use Rattle.vlt_rows.specs.Instances.{program_in, func_in};
ghost use Rattle.vlt_rows.specs.Made.{MakesForm, MakesBlock, MakesStmts, MakesArms};

use crate::instances::Instance;
use crate::list::{
    arm_list, expr_list, focus_end_list, focus_list, form_list, return_list, switch_list,
};
use crate::sink::RowError;
use crate::tree::{Flow, FlowArm, FlowBlock, FlowStmt};
use std::alloc::{AllocError, Global};
use vlt_base::{Items, KeyId, VarId};
use vlt_core::{Arm, Block, Form, Func, Stmt, Tok};

fn is_among(t: Tok, toks: &[Tok]) -> bool
    ensures { result ≡ list_any (is_tok (tok_of t)) (toks_of toks.now) }
{
    for u in toks {
        if t.is_same(*u) {
            return true;
        }
    }
    false
}

/// These tokens in the order of all.
fn ordered(alloc: Global, all: &[Tok], toks: &[Tok]) -> Result<Items<Tok>, AllocError>
    ensures { IfOk result (λ ts.
        toks_of ts ≡ filter (λ t. list_any (is_tok t) (toks_of toks.now)) (toks_of all.now)) }
{
    let mut list = Items::new(alloc);
    for t in all {
        if is_among(*t, toks) {
            list.push(*t)?;
        }
    }
    Ok(list)
}

#[tactic(auto, using(crate::proofs::Building::toks_last))]
fn put(list: &mut Items<Tok>, t: Tok) -> Result<(), AllocError>
    ensures { OnOk result (toks_of list.new ≡ toks_of list.old ++ tok_of t ∷ []) }
{
    list.push(t)?;
    Ok(())
}

fn put_if(list: &mut Items<Tok>, t: Tok, wanted: bool) -> Result<(), AllocError>
    ensures { OnOk result (toks_of list.new ≡ toks_of list.old ++
        (if wanted then tok_of t ∷ [] else [])) }
{
    if wanted { put(list, t) } else { Ok(()) }
}

/// All keys of a function.
#[tactic(auto, using(crate::proofs::Building::keys_more))]
fn key_tokens(alloc: Global, f: &Func) -> Result<Items<Tok>, RowError>
    ensures { MatchResult result
        (λ ts. toks_of ts ≡ map a_key (range_with_len 0 (length f.now.keys)))
        (UnfitBy (2 ^ 32 < length f.now.keys)) }
{
    let mut list = Items::new(alloc);
    for k in 0..f.keys.len() {
        match u32::try_from(k) {
            Err(_) => return Err(RowError::Unfit),
            Ok(k) => put(&mut list, Tok::Key(KeyId(k)))?,
        }
    }
    Ok(list)
}

/// The tokens of a function, keys first.
#[tactic(auto, using(crate::proofs::Building::more_vars))]
pub fn all_tokens(alloc: Global, f: &Func) -> Result<Items<Tok>, RowError>
    ensures { MatchResult result (λ ts. toks_of ts ≡ tokens_of (func_of f.now))
        (UnfitBy (HasManyTokens (func_of f.now))) }
{
    let mut list = key_tokens(alloc, f)?;
    for v in 0..f.vars.len() {
        match u32::try_from(v) {
            Err(_) => return Err(RowError::Unfit),
            Ok(v) => put_if(&mut list, Tok::Var(VarId(v)), f.is_owning_var(VarId(v)))?,
        }
    }
    Ok(list)
}

/// The tokens of scopes, with those of one more.
fn with(alloc: Global, left: &[Tok], bound: &[Tok]) -> Result<Items<Tok>, AllocError>
    ensures { IfOk result (λ ts. toks_of ts ≡ toks_of left.now ++ toks_of bound.now) }
{
    let mut list = Items::from_slice(alloc, left)?;
    list.append(Items::from_slice(alloc, bound)?)?;
    Ok(list)
}

/// The flow of a statement; `left` has the tokens that the blocks around bind, as far as the loop around.
#[cycle(build)]
fn flow_form(
    alloc: Global,
    i: &Instance<'_>,
    tokens: &[Tok],
    left: &[Tok],
    form: &Form,
) -> Result<Flow, RowError>
    requires { toks_of tokens.now ≡ tokens_of (func_in i.now) }
    ensures { MakesForm
        (flow_of (program_in i.now) (func_in i.now) (toks_of left.now)
        (form_of form.now)) result }
{
    match form {
        Form::If {
            cond,
            then_block,
            else_block,
        } => Ok(Flow::If {
            rows: expr_list(alloc, i, cond)?,
            then_block: flow_block(alloc, i, tokens, left, then_block)?,
            else_block: flow_block(alloc, i, tokens, left, else_block)?,
        }),
        Form::While { cond, body } => Ok(Flow::While {
            rows: expr_list(alloc, i, cond)?,
            body: flow_block(alloc, i, tokens, &[], body)?,
        }),
        Form::Switch { v, arms, end } => Ok(Flow::Switch {
            rows: switch_list(alloc, i, *v)?,
            arms: flow_arms(alloc, i, tokens, left, *v, arms.as_slice())?,
            end: *end,
        }),
        Form::Focus { y, z, body } => Ok(Flow::Focus {
            rows: focus_list(alloc, i, *y, *z)?,
            body: flow_block(alloc, i, tokens, left, body)?,
            after: focus_end_list(alloc, i, *y, *z)?,
        }),
        Form::Scope { body } => Ok(Flow::Scope {
            body: flow_block(alloc, i, tokens, left, body)?,
        }),
        Form::Return { value } => Ok(Flow::Return {
            rows: return_list(alloc, i, tokens, value)?,
        }),
        Form::Jump { continues } => Ok(Flow::Jump {
            continues: *continues,
            left: ordered(alloc, tokens, left)?,
        }),
        _ => Ok(Flow::Step {
            rows: form_list(alloc, i, form)?,
        }),
    }
}

#[cycle(build)]
fn flow_block(
    alloc: Global,
    i: &Instance<'_>,
    tokens: &[Tok],
    left: &[Tok],
    block: &Block,
) -> Result<FlowBlock, RowError>
    requires { toks_of tokens.now ≡ tokens_of (func_in i.now) }
    ensures { MakesBlock (flow_of_block (program_in i.now) (func_in i.now) (toks_of left.now)
        (block_of block.now)) result }
{
    let inside = with(alloc, left, block.bound.as_slice())?;
    Ok(FlowBlock {
        stmts: flow_stmts(alloc, i, tokens, inside.as_slice(), block.stmts.as_slice())?,
        bound: Items::from_slice(alloc, block.bound.as_slice())?,
        end: block.end,
    })
}

#[cycle(build)]
pub fn flow_stmts(
    alloc: Global,
    i: &Instance<'_>,
    tokens: &[Tok],
    left: &[Tok],
    stmts: &[Stmt],
) -> Result<Items<FlowStmt>, RowError>
    requires { toks_of tokens.now ≡ tokens_of (func_in i.now) }
    ensures { MakesStmts (flow_of_stmts (program_in i.now) (func_in i.now) (toks_of left.now)
        (stmts_of stmts.now)) result }
{
    let mut list = Items::new(alloc);
    for s in stmts {
        let flow = flow_form(alloc, i, tokens, left, &s.form)?;
        list.push(FlowStmt { at: s.at, flow })?;
    }
    Ok(list)
}

#[cycle(build)]
fn flow_arms(
    alloc: Global,
    i: &Instance<'_>,
    tokens: &[Tok],
    left: &[Tok],
    v: VarId,
    arms: &[Arm],
) -> Result<Items<FlowArm>, RowError>
    requires { toks_of tokens.now ≡ tokens_of (func_in i.now) }
    ensures { MakesArms (flow_of_arms (program_in i.now) (func_in i.now) (toks_of left.now) v.0
        (arms_of arms.now)) result }
{
    let mut list = Items::new(alloc);
    for arm in arms {
        let rows = arm_list(alloc, i, v, arm.case, arm.vars.as_slice())?;
        let body = flow_block(alloc, i, tokens, left, &arm.body)?;
        list.push(FlowArm { rows, body })?;
    }
    Ok(list)
}
