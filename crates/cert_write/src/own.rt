//! The row of a statement itself.

ghost use Rattle.std.specs.Prelude.{◌∷◌, ℕ, [], IfOk, IfSome};
ghost use Rattle.vlt_core.specs.Core as core;
ghost use Rattle.vlt_core.specs.View.{expr_of, form_of, block_of, arms_of};
ghost use Rattle.cert_rows.specs.Rows as row;
ghost use Rattle.cert_values.specs.Heads.{plain_row, plain_data, head_of};
ghost use Rattle.cert_write.specs.Notes.{maps_in};
ghost use Rattle.cert_write.specs.Rows.{own_data, IsReady, IsPut};

use crate::cursor::Cursor;
use crate::ends::{arms_end, block_ends};
use crate::maps::{put_join, put_maps_after, put_maps_around};
use crate::notes::after;
use cert_values::{
    CertText, put_arms, put_expr, put_focus as put_focus_row, put_head, put_plain as put_plain_row,
    put_scope as put_scope_row,
};
use std::alloc::AllocError;
use vlt_base::VarId;
use vlt_core::{Annotation, Arm, Block, Expr, Form};

/// Writes the row of an `if`.
pub fn put_choice(
    out: &mut CertText,
    bound: bool,
    annotations: &[Annotation],
    from: Cursor,
    cond: &Expr,
    then_block: &Block,
    else_block: &Block,
) -> Result<Cursor, AllocError>
    requires { IsReady annotations.now from }
    ensures { IfOk result (λ to. IsPut annotations.now from.next 1
        (own_data bound (maps_in annotations.now) from.next (core.choose (expr_of cond.now)
        (block_of then_block.now) (block_of else_block.now)) ∷ []) out.old out.new to) }
{
    let ends = block_ends(then_block) && block_ends(else_block);
    out.tag("if")?;
    put_expr(out, cond)?;
    put_head(out, then_block)?;
    put_head(out, else_block)?;
    put_join(out, bound, annotations, from, ends)?;
    out.end()?;
    after(annotations, from)
}

/// Writes the row of a loop.
pub fn put_loop(
    out: &mut CertText,
    bound: bool,
    annotations: &[Annotation],
    from: Cursor,
    cond: &Expr,
    body: &Block,
) -> Result<Cursor, AllocError>
    requires { IsReady annotations.now from }
    ensures { IfOk result (λ to. IsPut annotations.now from.next 1
        (own_data bound (maps_in annotations.now) from.next (core.loop (expr_of cond.now)
        (block_of body.now)) ∷ []) out.old out.new to) }
{
    out.tag("while")?;
    put_expr(out, cond)?;
    put_head(out, body)?;
    put_maps_around(out, bound, annotations, from)?;
    put_maps_after(out, bound, annotations, from)?;
    out.end()?;
    after(annotations, from)
}

/// Writes the row of a `switch`.
pub fn put_cases(
    out: &mut CertText,
    bound: bool,
    annotations: &[Annotation],
    from: Cursor,
    v: VarId,
    arms: &[Arm],
) -> Result<Cursor, AllocError>
    requires { IsReady annotations.now from }
    ensures row { IfOk result (λ to. (end : ℕ) → IsPut annotations.now from.next 1
        (own_data bound (maps_in annotations.now) from.next
        (core.switch v.0 (arms_of arms.now) end) ∷ []) out.old out.new to) }
    ensures ready { IfOk result (λ to. IsReady annotations.now to) }
{
    let ends = arms_end(arms);
    out.tag("switch")?;
    out.number(v.0 as u64)?;
    put_arms(out, arms)?;
    put_join(out, bound, annotations, from, ends)?;
    out.end()?;
    after(annotations, from)
}

/// Writes the row of a `focus`.
pub fn put_focus(
    out: &mut CertText,
    annotations: &[Annotation],
    from: Cursor,
    y: VarId,
    z: VarId,
    body: &Block,
) -> Result<Cursor, AllocError>
    requires { IsReady annotations.now from }
    ensures { IfOk result (λ to. IsPut annotations.now from.next 1
        (plain_data (row.focus y.0 z.0 (head_of (block_of body.now))) ∷ [])
        out.old out.new to) }
{
    put_focus_row(out, y, z, body)?;
    after(annotations, from)
}

/// Writes the row of a block that stands as a statement.
pub fn put_scope(
    out: &mut CertText,
    annotations: &[Annotation],
    from: Cursor,
    body: &Block,
) -> Result<Cursor, AllocError>
    requires { IsReady annotations.now from }
    ensures { IfOk result (λ to. IsPut annotations.now from.next 1
        (plain_data (row.scope (head_of (block_of body.now))) ∷ []) out.old out.new to) }
{
    put_scope_row(out, body)?;
    after(annotations, from)
}

/// Writes the row of a statement without blocks; of another one nothing is said.
pub fn put_plain(
    out: &mut CertText,
    annotations: &[Annotation],
    from: Cursor,
    form: &Form,
) -> Result<Cursor, AllocError>
    requires { IsReady annotations.now from }
    ensures { IfOk result (λ to. IfSome (plain_row (form_of form.now)) (λ r.
        IsPut annotations.now from.next 1 (plain_data r ∷ []) out.old out.new to)) }
{
    put_plain_row(out, form)?;
    after(annotations, from)
}
