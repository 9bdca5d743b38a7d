//! How many tasks a function can have left at a time.

ghost use Rattle.std.specs.Prelude.{◌≡◌, IfSome};
ghost use Rattle.vlt_core.specs.View.{program_of, stmts_of, form_of, block_of, arms_of};
ghost use Rattle.vlt_meaning_laws.specs.Machine.Bounds as bounds;
ghost use Rattle.vlt_meaning_laws.specs.Machine.Bounds.{tall_of};

use vlt_core::{Arm, Block, Form, Program, Stmt};

/// The tasks that statements need, those that are left after them included; none where they can't be counted.
#[cycle(need)]
fn need(stmts: &[Stmt]) -> Option<u32>
    ensures { IfSome result (λ n. n ≡ bounds.need (stmts_of stmts.now)) }
{
    let mut most: u32 = 1;
    for s in stmts {
        most = most.max(inner(&s.form)?);
    }
    Some(most)
}

/// Those of a statement, beside what is left of the list that it stands in.
#[cycle(need)]
fn inner(form: &Form) -> Option<u32>
    ensures { IfSome result (λ n. n ≡ bounds.inner (form_of form.now)) }
{
    match form {
        Form::If {
            then_block,
            else_block,
            ..
        } => {
            let first = need_block(then_block)?;
            let second = need_block(else_block)?;
            first.max(second).checked_add(1)
        }
        Form::While { body, .. } => need_block(body)?.checked_add(2),
        Form::Switch { arms, .. } => need_arms(arms.as_slice())?.checked_add(1),
        Form::Focus { body, .. } => need_block(body)?.checked_add(2),
        Form::Scope { body } => need_block(body)?.checked_add(1),
        _ => Some(1),
    }
}

/// Those of a block.
#[cycle(need)]
fn need_block(block: &Block) -> Option<u32>
    ensures { IfSome result (λ n. n ≡ bounds.need_block (block_of block.now)) }
{
    need(block.stmts.as_slice())?.checked_add(1)
}

/// Those of arms.
#[cycle(need)]
fn need_arms(arms: &[Arm]) -> Option<u32>
    ensures { IfSome result (λ n. n ≡ bounds.need_arms (arms_of arms.now)) }
{
    let mut most: u32 = 0;
    for a in arms {
        most = most.max(need_block(&a.body)?);
    }
    Some(most)
}

/// The most tasks that a function needs; none where they can't be counted.
pub fn tall(p: &Program) -> Option<u32>
    ensures { IfSome result (λ n. n ≡ tall_of (program_of p.now)) }
{
    let mut most: u32 = 0;
    for f in p.fns.as_slice() {
        most = most.max(need(f.body.as_slice())?);
    }
    Some(most)
}
