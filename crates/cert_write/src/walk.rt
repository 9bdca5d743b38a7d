//! The rows of statements and of their blocks, in preorder.

ghost use Rattle.std.specs.Prelude.{IfOk};
ghost use Rattle.vlt_core.specs.View.{form_of, block_of, stmts_of, arms_of};
ghost use Rattle.cert_format.specs.Bodies.{count, count_block, count_list, count_arms};
ghost use Rattle.cert_write.specs.Notes.{maps_in};
ghost use Rattle.cert_write.specs.Rows.{form_data, block_data, list_data, arms_data, IsReady, IsPut};

use crate::cursor::Cursor;
use crate::own::{put_cases, put_choice, put_focus, put_loop, put_plain, put_scope};
use cert_values::CertText;
use std::alloc::AllocError;
use vlt_core::{Annotation, Arm, Block, Form, Stmt};

/// Writes the rows of a statement and of those inside it.
#[cycle(walk)]
fn put_form(
    out: &mut CertText,
    bound: bool,
    annotations: &[Annotation],
    form: &Form,
    from: Cursor,
) -> Result<Cursor, AllocError>
    requires { IsReady annotations.now from }
    ensures { IfOk result (λ to. IsPut annotations.now from.next (count (form_of form.now))
        (form_data bound (maps_in annotations.now) from.next (form_of form.now))
        out.old out.new to) }
{
    match form {
        Form::If {
            cond,
            then_block,
            else_block,
        } => {
            let to = put_choice(out, bound, annotations, from, cond, then_block, else_block)?;
            let to = put_block(out, bound, annotations, then_block, to)?;
            put_block(out, bound, annotations, else_block, to)
        }
        Form::While { cond, body } => {
            let to = put_loop(out, bound, annotations, from, cond, body)?;
            put_block(out, bound, annotations, body, to)
        }
        Form::Switch { v, arms, .. } => {
            let to = put_cases(out, bound, annotations, from, *v, arms.as_slice())?;
            put_arms(out, bound, annotations, arms.as_slice(), to)
        }
        Form::Focus { y, z, body } => {
            let to = put_focus(out, annotations, from, *y, *z, body)?;
            put_block(out, bound, annotations, body, to)
        }
        Form::Scope { body } => {
            let to = put_scope(out, annotations, from, body)?;
            put_block(out, bound, annotations, body, to)
        }
        _ => put_plain(out, annotations, from, form),
    }
}

#[cycle(walk)]
fn put_block(
    out: &mut CertText,
    bound: bool,
    annotations: &[Annotation],
    block: &Block,
    from: Cursor,
) -> Result<Cursor, AllocError>
    requires { IsReady annotations.now from }
    ensures { IfOk result (λ to. IsPut annotations.now from.next (count_block (block_of block.now))
        (block_data bound (maps_in annotations.now) from.next (block_of block.now))
        out.old out.new to) }
{
    put_stmts(out, bound, annotations, block.stmts.as_slice(), from)
}

/// Writes the rows of statements, one after another, in a function with or without a bound entry.
#[cycle(walk)]
pub fn put_stmts(
    out: &mut CertText,
    bound: bool,
    annotations: &[Annotation],
    stmts: &[Stmt],
    from: Cursor,
) -> Result<Cursor, AllocError>
    requires { IsReady annotations.now from }
    ensures { IfOk result (λ to. IsPut annotations.now from.next (count_list (stmts_of stmts.now))
        (list_data bound (maps_in annotations.now) from.next (stmts_of stmts.now))
        out.old out.new to) }
{
    let mut to = from;
    for stmt in stmts {
        to = put_form(out, bound, annotations, &stmt.form, to)?;
    }
    Ok(to)
}

#[cycle(walk)]
fn put_arms(
    out: &mut CertText,
    bound: bool,
    annotations: &[Annotation],
    arms: &[Arm],
    from: Cursor,
) -> Result<Cursor, AllocError>
    requires { IsReady annotations.now from }
    ensures { IfOk result (λ to. IsPut annotations.now from.next (count_arms (arms_of arms.now))
        (arms_data bound (maps_in annotations.now) from.next (arms_of arms.now))
        out.old out.new to) }
{
    let mut to = from;
    for arm in arms {
        to = put_block(out, bound, annotations, &arm.body, to)?;
    }
    Ok(to)
}
