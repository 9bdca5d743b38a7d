//! The first fault of a body over all tokens.

ghost use Rattle.std.specs.Prelude.{◌≡◌, ◌↔◌, ◌<◌, ◌^◌, IfOk, IfErr, IfSome, MatchResult};
ghost use Rattle.vlt_core.specs.Flow.{size_block};
ghost use Rattle.vlt_core.specs.Found.{One, Has};
ghost use Rattle.vlt_core.specs.View.{tok_of};
ghost use Rattle.vlt_core.specs.HeldView.{status_of};
ghost use Rattle.vlt_keyset.specs.Held.{map_of};
ghost use Rattle.vlt_core_laws.specs.Sweep.{In};
ghost use Rattle.vlt_rows.specs.FlowView.{block_view};
ghost use Rattle.vlt_faults.specs.Finding.Ones.{many_of};
ghost use Rattle.vlt_faults.specs.Judge.Overs.{IsFirstOver, IsWhole, IsKeyBelow, IsVarBelow, IsNumbered, AreBounds};
ghost use Rattle.vlt_faults.specs.Judge.Faulty.{HasNoNumber};
ghost use Rattle.vlt_rows.specs.Unfit.{UnfitBy};

use crate::finding::{Ones, find_statuses};
use crate::judge::blame::{Blame, earlier};
use crate::judge::extent::{extent_of_block, larger};
use crate::judge::judging::{Point, judge_block};
use crate::judge::telling::singles_of;
use std::alloc::Global;
use vlt_base::{KeyId, Memory, VarId};
use vlt_core::{Status, Tok};
use vlt_keyset::Held;
use vlt_rows::{FlowBlock, RowError};

/// How many statements a body has; its tokens have numbers below `keys` and `vars`.
#[derive(Clone, Copy)]
struct Whole {
    stmts: usize,
    keys: u32,
    vars: u32,
}

/// Each token that a body names has a number below these.
#[derive(Clone, Copy, Debug)]
pub struct TokenBounds {
    pub keys: u32,
    pub vars: u32,
}

fn status_at(start: &Held, tok: Tok) -> Status
    ensures { status_of result ≡ map_of start.now (tok_of tok) }
{
    if start.has(tok) {
        start.status(tok)
    } else {
        Status::Absent
    }
}

/// The single statuses of a token in the map with which a body begins.
pub fn start_ones(start: &Held, tok: Tok) -> Ones
    ensures { (o : One) → In (many_of result) o ↔ Has (map_of start.now (tok_of tok)) o }
{
    singles_of(status_at(start, tok))
}

fn judge_token(
    alloc: Global,
    body: &FlowBlock,
    start: &Held,
    whole: Whole,
    tok: Tok,
) -> Result<Option<Blame>, Memory>
    requires { IsWhole (block_view body.now) (map_of start.now) whole }
    ensures first { IfOk result (IsFirstOver (λ t. t ≡ tok_of tok) (block_view body.now)
        (map_of start.now)) }
    ensures own { IfOk result (λ x. IfSome x (λ b. tok_of b.tok ≡ tok_of tok)) }
{
    let ones = start_ones(start, tok);
    let kept = find_statuses(alloc, tok, body, whole.stmts, ones)?;
    let judged = judge_block(
        &kept,
        tok,
        body,
        Point {
            stmt: 0,
            spot: 0,
            ones,
        },
    );
    Ok(judged.first)
}

/// Of a body that begins with the map. No token past the numbers is named, or has a place.
fn whole_extent(body: &FlowBlock, start: &Held) -> Result<Whole, RowError>
    requires { IsNumbered start.now }
    ensures { MatchResult result (IsWhole (block_view body.now) (map_of start.now))
        (UnfitBy (HasNoNumber (block_view body.now))) }
{
    let extent = extent_of_block(body);
    if extent.stmts >= 1 << 62 {
        return Err(RowError::Unfit);
    }
    if extent.spots >= 1 << 62 {
        return Err(RowError::Unfit);
    }
    let Ok(keys) = u32::try_from(larger(extent.keys, start.key_count())) else {
        return Err(RowError::Unfit);
    };
    let Ok(vars) = u32::try_from(larger(extent.vars, start.var_count())) else {
        return Err(RowError::Unfit);
    };
    Ok(Whole {
        stmts: extent.stmts,
        keys,
        vars,
    })
}

/// How many statements a body has. `Unfit` if there are 2^62 or more.
pub fn statement_count(body: &FlowBlock) -> Result<usize, RowError>
    ensures count { IfOk result (λ n. (n ≡ size_block (block_view body.now)) × (n < 2 ^ 62)) }
    ensures unfit { IfErr result (UnfitBy (HasNoNumber (block_view body.now))) }
{
    let extent = extent_of_block(body);
    if extent.stmts >= 1 << 62 {
        return Err(RowError::Unfit);
    }
    Ok(extent.stmts)
}

fn judge_keys(
    alloc: Global,
    body: &FlowBlock,
    start: &Held,
    whole: Whole,
) -> Result<Option<Blame>, Memory>
    requires { IsWhole (block_view body.now) (map_of start.now) whole }
    ensures { IfOk result (IsFirstOver (IsKeyBelow whole.keys) (block_view body.now)
        (map_of start.now)) }
{
    let mut first = None;
    for key in 0..whole.keys {
        first = earlier(
            first,
            judge_token(alloc, body, start, whole, Tok::Key(KeyId(key)))?,
        );
    }
    Ok(first)
}

fn judge_vars(
    alloc: Global,
    body: &FlowBlock,
    start: &Held,
    whole: Whole,
) -> Result<Option<Blame>, Memory>
    requires { IsWhole (block_view body.now) (map_of start.now) whole }
    ensures { IfOk result (IsFirstOver (IsVarBelow whole.vars) (block_view body.now)
        (map_of start.now)) }
{
    let mut first = None;
    for var in 0..whole.vars {
        first = earlier(
            first,
            judge_token(alloc, body, start, whole, Tok::Var(VarId(var)))?,
        );
    }
    Ok(first)
}

/// The first fault of one token in a body that begins with the map. `Unfit` if something in the body has no number.
pub fn judge_one(
    alloc: Global,
    body: &FlowBlock,
    start: &Held,
    tok: Tok,
) -> Result<Option<Blame>, RowError>
    requires { IsNumbered start.now }
    ensures first { IfOk result (IsFirstOver (λ t. t ≡ tok_of tok) (block_view body.now)
        (map_of start.now)) }
    ensures own { IfOk result (λ x. IfSome x (λ b. tok_of b.tok ≡ tok_of tok)) }
    ensures unfit { IfErr result (UnfitBy (HasNoNumber (block_view body.now))) }
{
    let whole = whole_extent(body, start)?;
    Ok(judge_token(alloc, body, start, whole, tok)?)
}

/// Numbers of keys and variables such that a token beyond them is named by no row of the body, and absent in the map with
/// which it begins. `Unfit` if something in the body has no number.
pub fn token_bounds(body: &FlowBlock, start: &Held) -> Result<TokenBounds, RowError>
    requires { IsNumbered start.now }
    ensures bounds { IfOk result (λ c. AreBounds (block_view body.now) (map_of start.now)
        c.keys c.vars) }
    ensures unfit { IfErr result (UnfitBy (HasNoNumber (block_view body.now))) }
{
    let whole = whole_extent(body, start)?;
    Ok(TokenBounds {
        keys: whole.keys,
        vars: whole.vars,
    })
}

/// The first fault of a body that begins with the map. One key past all others is judged for all tokens that no row
/// names. `Unfit` where something in the body has no number.
pub fn judge(alloc: Global, body: &FlowBlock, start: &Held) -> Result<Option<Blame>, RowError>
    requires { IsNumbered start.now }
    ensures first { IfOk result (IsFirstOver (λ t. Unit {0}) (block_view body.now)
        (map_of start.now)) }
    ensures unfit { IfErr result (UnfitBy (HasNoNumber (block_view body.now))) }
{
    let whole = whole_extent(body, start)?;
    let keys = judge_keys(alloc, body, start, whole)?;
    let other = judge_token(alloc, body, start, whole, Tok::Key(KeyId(whole.keys)))?;
    let vars = judge_vars(alloc, body, start, whole)?;
    Ok(earlier(earlier(keys, other), vars))
}
