//! The notes of each part, in order.

ghost use Rattle.std.specs.Prelude.{◌≡◌, ◌≤◌, ◌^◌, ◌+◌, ◌||◌, [], ◌∷◌, if◌then◌else◌, IfOk, OnOk};
ghost use Rattle.vlt_core.specs.Flow.{size, size_block, size_stmts, size_arms};
ghost use Rattle.vlt_core.specs.Least.{a_loop, a_join, noted, noted_block, noted_stmts, noted_arms};
ghost use Rattle.vlt_rows.specs.FlowView.{flow_view, block_view, stmts_view, arms_view};
ghost use Rattle.vlt_flow_maps.specs.Kept.{slot};
ghost use Rattle.vlt_flow.specs.Notes.Listed.{map_in, IsListed, AreListed};
ghost use Rattle.vlt_flow.specs.Notes.Noted.{IsLong, IsHeld, IsNoted, HasNoList, LacksNote, IfUnlisted};

use crate::errors::NoteError;
use crate::notes::passing::{passes_arms, passes_block};
use crate::notes::statuses::listed;
use std::alloc::Global;
use vlt_base::{Items, StmtId, either};
use vlt_core::{Note, TokMap};
use vlt_flow_maps::Kept;
use vlt_keyset::TokenCounts;
use vlt_rows::{Flow, FlowArm, FlowBlock, FlowStmt};

fn stmt_id(n: usize) -> Result<StmtId, NoteError>
    ensures id { IfOk result (λ id. id.0 ≡ n) }
    ensures unfit { IfUnlisted result (2 ^ 32 ≤ n) }
{
    match u32::try_from(n) {
        Ok(n) => Ok(StmtId(n)),
        Err(_) => Err(NoteError::Unfit),
    }
}

fn around(alloc: Global, kept: &Kept, n: usize, counts: TokenCounts) -> Result<TokMap, NoteError>
    requires { IsLong kept.now (n + 1) }
    ensures held { IfOk result (λ m. IsHeld (slot kept.now.around n) (map_in m)) }
    ensures order { IfOk result (λ m. IsListed counts.keys counts.vars m.pairs) }
    ensures unfit { IfUnlisted result (HasNoList counts.keys counts.vars (slot kept.now.around n)) }
{
    match kept.around(n) {
        Some(held) => listed(alloc, held, counts),
        None => Err(NoteError::Unfit),
    }
}

fn following(alloc: Global, kept: &Kept, n: usize, counts: TokenCounts) -> Result<TokMap, NoteError>
    requires { IsLong kept.now (n + 1) }
    ensures held { IfOk result (λ m. IsHeld (slot kept.now.following n) (map_in m)) }
    ensures order { IfOk result (λ m. IsListed counts.keys counts.vars m.pairs) }
    ensures unfit { IfUnlisted result
        (HasNoList counts.keys counts.vars (slot kept.now.following n)) }
{
    match kept.following(n) {
        Some(held) => listed(alloc, held, counts),
        None => Err(NoteError::Unfit),
    }
}

fn note_loop(
    alloc: Global,
    notes: &mut Items<Note>,
    kept: &Kept,
    n: usize,
    counts: TokenCounts,
) -> Result<(), NoteError>
    requires { IsLong kept.now (n + 1) }
    ensures noted { OnOk result (IsNoted kept.now (a_loop n ∷ []) notes.old notes.new) }
    ensures order { AreListed counts.keys counts.vars notes.old →
        OnOk result (AreListed counts.keys counts.vars notes.new) }
    ensures unfit { IfUnlisted result (LacksNote counts.keys counts.vars kept.now
        (a_loop n ∷ [])) }
{
    let stmt = stmt_id(n)?;
    let around = around(alloc, kept, n, counts)?;
    let exit = following(alloc, kept, n, counts)?;
    Ok(notes.push(Note::Loop { stmt, around, exit })?)
}

/// The note of a choice, if it can be passed.
fn note_join(
    alloc: Global,
    notes: &mut Items<Note>,
    kept: &Kept,
    n: usize,
    passes: bool,
    counts: TokenCounts,
) -> Result<(), NoteError>
    requires { IsLong kept.now (n + 1) }
    ensures noted { OnOk result (IsNoted kept.now (if passes then a_join n ∷ [] else []) notes.old
        notes.new) }
    ensures order { AreListed counts.keys counts.vars notes.old →
        OnOk result (AreListed counts.keys counts.vars notes.new) }
    ensures unfit { IfUnlisted result (LacksNote counts.keys counts.vars kept.now
        (if passes then a_join n ∷ [] else [])) }
{
    if !passes {
        return Ok(());
    }
    let stmt = stmt_id(n)?;
    let map = following(alloc, kept, n, counts)?;
    Ok(notes.push(Note::Join { stmt, map })?)
}

#[cycle(noting)]
fn note_form(
    alloc: Global,
    notes: &mut Items<Note>,
    kept: &Kept,
    form: &Flow,
    n: usize,
    counts: TokenCounts,
) -> Result<usize, NoteError>
    requires room { IsLong kept.now (n + size (flow_view form.now)) }
    ensures noted { OnOk result (IsNoted kept.now
        (noted n (flow_view form.now)) notes.old notes.new) }
    ensures order { AreListed counts.keys counts.vars notes.old →
        OnOk result (AreListed counts.keys counts.vars notes.new) }
    ensures at { IfOk result (λ m. m ≡ n + size (flow_view form.now)) }
    ensures unfit { IfUnlisted result (LacksNote counts.keys counts.vars kept.now
        (noted n (flow_view form.now))) }
{
    match form {
        Flow::If {
            rows,
            then_block,
            else_block,
        } => {
            let first = passes_block(then_block);
            let second = passes_block(else_block);
            note_join(alloc, notes, kept, n, either(first, second), counts)?;
            let m = note_block(alloc, notes, kept, then_block, n + 1, counts)?;
            note_block(alloc, notes, kept, else_block, m, counts)
        }
        Flow::While { rows, body } => {
            note_loop(alloc, notes, kept, n, counts)?;
            note_block(alloc, notes, kept, body, n + 1, counts)
        }
        Flow::Switch { rows, arms, end } => {
            note_join(alloc, notes, kept, n, passes_arms(arms.as_slice()), counts)?;
            note_arms(alloc, notes, kept, arms.as_slice(), n + 1, counts)
        }
        Flow::Scope { body } => note_block(alloc, notes, kept, body, n + 1, counts),
        Flow::Focus { rows, body, after } => note_block(alloc, notes, kept, body, n + 1, counts),
        _ => Ok(n + 1),
    }
}

#[cycle(noting)]
pub fn note_block(
    alloc: Global,
    notes: &mut Items<Note>,
    kept: &Kept,
    block: &FlowBlock,
    n: usize,
    counts: TokenCounts,
) -> Result<usize, NoteError>
    requires room { IsLong kept.now (n + size_block (block_view block.now)) }
    ensures noted { OnOk result (IsNoted kept.now
        (noted_block n (block_view block.now)) notes.old notes.new) }
    ensures order { AreListed counts.keys counts.vars notes.old →
        OnOk result (AreListed counts.keys counts.vars notes.new) }
    ensures at { IfOk result (λ m. m ≡ n + size_block (block_view block.now)) }
    ensures unfit { IfUnlisted result (LacksNote counts.keys counts.vars kept.now
        (noted_block n (block_view block.now))) }
{
    note_list(alloc, notes, kept, block.stmts.as_slice(), n, counts)
}

#[cycle(noting)]
fn note_list(
    alloc: Global,
    notes: &mut Items<Note>,
    kept: &Kept,
    stmts: &[FlowStmt],
    n: usize,
    counts: TokenCounts,
) -> Result<usize, NoteError>
    requires room { IsLong kept.now (n + size_stmts (stmts_view stmts.now)) }
    ensures noted { OnOk result (IsNoted kept.now
        (noted_stmts n (stmts_view stmts.now)) notes.old notes.new) }
    ensures order { AreListed counts.keys counts.vars notes.old →
        OnOk result (AreListed counts.keys counts.vars notes.new) }
    ensures at { IfOk result (λ m. m ≡ n + size_stmts (stmts_view stmts.now)) }
    ensures unfit { IfUnlisted result (LacksNote counts.keys counts.vars kept.now
        (noted_stmts n (stmts_view stmts.now))) }
{
    let mut at = n;
    for s in stmts {
        at = note_form(alloc, notes, kept, &s.flow, at, counts)?;
    }
    Ok(at)
}

#[cycle(noting)]
fn note_arms(
    alloc: Global,
    notes: &mut Items<Note>,
    kept: &Kept,
    arms: &[FlowArm],
    n: usize,
    counts: TokenCounts,
) -> Result<usize, NoteError>
    requires room { IsLong kept.now (n + size_arms (arms_view arms.now)) }
    ensures noted { OnOk result (IsNoted kept.now
        (noted_arms n (arms_view arms.now)) notes.old notes.new) }
    ensures order { AreListed counts.keys counts.vars notes.old →
        OnOk result (AreListed counts.keys counts.vars notes.new) }
    ensures at { IfOk result (λ m. m ≡ n + size_arms (arms_view arms.now)) }
    ensures unfit { IfUnlisted result (LacksNote counts.keys counts.vars kept.now
        (noted_arms n (arms_view arms.now))) }
{
    let mut at = n;
    for arm in arms {
        at = note_block(alloc, notes, kept, &arm.body, at, counts)?;
    }
    Ok(at)
}
