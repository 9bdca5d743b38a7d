//! Forms of drafts, with their notes.

ghost use Rattle.std.specs.Prelude.{◌≡◌, ◌≤◌, ◌+◌, IfOk, OnOk, reverse};
ghost use Rattle.vlt_core.specs.View.{form_of, block_of, stmts_of, arms_of};
ghost use Rattle.cert_format.specs.Bodies as s;
ghost use Rattle.cert_format.specs.Bodies.{size, size_block, size_list, size_arms};
ghost use Rattle.cert_read_bodies.specs.Tree as d;
ghost use Rattle.cert_read_bodies.specs.Notes.{Adds};

use crate::notes::{Notes, note_join, note_loop, pass};
use crate::plain::plain;
use crate::tree::{Arm as ArmDraft, Block as BlockDraft, Draft};
use std::alloc::{AllocError, Global};
use vlt_base::Items;
use vlt_core::{Arm, Block, Form, Stmt};

/// The drafts from the last to the first.
fn reversed(alloc: Global, drafts: Items<Draft>) -> Result<Items<Draft>, AllocError>
    ensures { IfOk result (λ r. r ≡ reverse drafts) }
{
    let mut rest = drafts;
    let mut out = Items::new(alloc);
    while let Some(x) = rest.pop() {
        out.push(x)?;
    }
    Ok(out)
}

/// The arms from the last to the first.
fn reversed_arms(alloc: Global, arms: Items<ArmDraft>) -> Result<Items<ArmDraft>, AllocError>
    ensures { IfOk result (λ r. r ≡ reverse arms) }
{
    let mut rest = arms;
    let mut out = Items::new(alloc);
    while let Some(x) = rest.pop() {
        out.push(x)?;
    }
    Ok(out)
}

#[cycle(forms)]
fn form(alloc: Global, draft: Draft, notes: &mut Notes) -> Result<Form, AllocError>
    requires { notes.old.next + size (d.draft_of draft) ≤ 18446744073709551615 }
    ensures form { IfOk result (λ f. form_of f ≡ s.form_of (d.draft_of draft)) }
    ensures notes { OnOk result (Adds notes.old notes.new
        (s.notes_of notes.old.next (d.draft_of draft)) (size (d.draft_of draft))) }
{
    match draft {
        Draft::Plain(row) => {
            pass(notes);
            Ok(plain(row.into_inner()))
        }
        Draft::If(cond, yes, no, maps) => {
            note_join(notes, maps)?;
            let then_block = block(alloc, yes, notes)?;
            let else_block = block(alloc, no, notes)?;
            Ok(Form::If {
                cond: cond.into_inner(),
                then_block,
                else_block,
            })
        }
        Draft::While(cond, body, around, exit) => {
            note_loop(notes, around, exit)?;
            let body = block(alloc, body, notes)?;
            Ok(Form::While {
                cond: cond.into_inner(),
                body,
            })
        }
        Draft::Switch(v, arms_at, maps) => {
            note_join(notes, maps)?;
            let arms = arms(alloc, arms_at, notes)?;
            Ok(Form::Switch { v, arms, end: 0 })
        }
        Draft::Focus(y, z, body) => {
            pass(notes);
            let body = block(alloc, body, notes)?;
            Ok(Form::Focus { y, z, body })
        }
        Draft::Scope(body) => {
            pass(notes);
            let body = block(alloc, body, notes)?;
            Ok(Form::Scope { body })
        }
    }
}

#[cycle(forms)]
fn block(alloc: Global, b: BlockDraft, notes: &mut Notes) -> Result<Block, AllocError>
    requires { notes.old.next + size_block (d.block_of b) ≤ 18446744073709551615 }
    ensures block { IfOk result (λ r. block_of r ≡ s.core_block (d.block_of b)) }
    ensures notes { OnOk result (Adds notes.old notes.new
        (s.block_notes notes.old.next (d.block_of b)) (size_block (d.block_of b))) }
{
    let BlockDraft {
        count: _,
        bound,
        stmts: drafts,
    } = b;
    let stmts = stmts(alloc, drafts, notes)?;
    Ok(Block {
        stmts,
        bound,
        end: 0,
    })
}

/// The statements of drafts. Their notes come after the ones that are there.
#[cycle(forms)]
pub fn stmts(
    alloc: Global,
    drafts: Items<Draft>,
    notes: &mut Notes,
) -> Result<Items<Stmt>, AllocError>
    requires { notes.old.next + size_list (d.drafts_of drafts) ≤ 18446744073709551615 }
    ensures stmts { IfOk result (λ r. stmts_of r ≡ s.core_list (d.drafts_of drafts)) }
    ensures notes { OnOk result (Adds notes.old notes.new
        (s.list_notes notes.old.next (d.drafts_of drafts)) (size_list (d.drafts_of drafts))) }
{
    let mut left = reversed(alloc, drafts)?;
    let mut out = Items::new(alloc);
    while let Some(x) = left.pop() {
        let form = form(alloc, x, notes)?;
        out.push(Stmt { at: 0, form })?;
    }
    Ok(out)
}

#[cycle(forms)]
fn arms(alloc: Global, drafts: Items<ArmDraft>, notes: &mut Notes) -> Result<Items<Arm>, AllocError>
    requires { notes.old.next + size_arms (d.arms_of drafts) ≤ 18446744073709551615 }
    ensures arms { IfOk result (λ r. arms_of r ≡ s.core_arms (d.arms_of drafts)) }
    ensures notes { OnOk result (Adds notes.old notes.new
        (s.arms_notes notes.old.next (d.arms_of drafts)) (size_arms (d.arms_of drafts))) }
{
    let mut left = reversed_arms(alloc, drafts)?;
    let mut out = Items::new(alloc);
    while let Some(x) = left.pop() {
        let ArmDraft { case, vars, body } = x;
        let body = block(alloc, body, notes)?;
        out.push(Arm { case, vars, body })?;
    }
    Ok(out)
}
