//! Whether nothing comes after a statement.

ghost use Rattle.std.specs.Prelude.{◌≡◌, false};
ghost use Rattle.vlt_core.specs.View.{form_of, block_of, stmts_of, arms_of};
ghost use Rattle.vlt_core.specs.KindedBodies as s;

use vlt_core::{Arm, Block, Form, Stmt};

/// Whether the statement ends.
#[cycle(ending)]
pub fn stmt_ends(form: &Form) -> bool
    ensures { result ≡ s.ends (form_of form.now) }
{
    match form {
        Form::Return { .. } => true,
        Form::Jump { .. } => true,
        Form::Scope { body } => block_ends(body),
        Form::If {
            then_block,
            else_block,
            ..
        } => block_ends(then_block) && block_ends(else_block),
        Form::Switch { arms, .. } => arms_end(arms.as_slice()),
        _ => false,
    }
}

/// Whether the block ends.
#[cycle(ending)]
pub fn block_ends(block: &Block) -> bool
    ensures { result ≡ s.block_ends (block_of block.now) }
{
    list_ends(block.stmts.as_slice())
}

/// Whether the last statement ends.
#[cycle(ending)]
pub fn list_ends(stmts: &[Stmt]) -> bool
    ensures { result ≡ s.list_ends false (stmts_of stmts.now) }
{
    let mut ended = false;
    for stmt in stmts {
        ended = stmt_ends(&stmt.form);
    }
    ended
}

/// Whether each arm ends.
#[cycle(ending)]
fn arms_end(arms: &[Arm]) -> bool
    ensures { result ≡ s.arms_end (arms_of arms.now) }
{
    for arm in arms {
        if !block_ends(&arm.body) {
            return false;
        }
    }
    true
}
