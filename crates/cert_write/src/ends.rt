//! Whether statements end.

ghost use Rattle.std.specs.Prelude.{◌≡◌};
ghost use Rattle.vlt_core.specs.KindedBodies as b;
ghost use Rattle.vlt_core.specs.View.{form_of, block_of, arms_of};

use vlt_core::{Arm, Block, Form};

/// Whether a statement ends.
#[cycle(ends)]
fn ends(form: &Form) -> bool
    ensures { result ≡ b.ends (form_of form.now) }
{
    match form {
        Form::Return { .. } => true,
        Form::Jump { .. } => true,
        Form::Scope { body } => block_ends(body),
        Form::If {
            then_block,
            else_block,
            ..
        } => block_ends(then_block) && block_ends(else_block),
        Form::Switch { arms, .. } => arms_end(arms.as_slice()),
        _ => false,
    }
}

/// Whether the last statement of a block ends.
#[cycle(ends)]
pub fn block_ends(block: &Block) -> bool
    ensures { result ≡ b.block_ends (block_of block.now) }
{
    let mut last = false;
    for stmt in block.stmts.as_slice() {
        last = ends(&stmt.form);
    }
    last
}

/// Whether the blocks of all arms end.
#[cycle(ends)]
pub fn arms_end(arms: &[Arm]) -> bool
    ensures { result ≡ b.arms_end (arms_of arms.now) }
{
    for arm in arms {
        if !block_ends(&arm.body) {
            return false;
        }
    }
    true
}
