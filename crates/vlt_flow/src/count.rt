//! How many statements there are.

ghost use Rattle.std.specs.Prelude.{◌≡◌, ◌+◌, ◌≤◌, ◌^◌, IfOk, IfErr};
ghost use Rattle.vlt_rows.specs.FlowView.{flow_view, block_view, stmts_view, arms_view};
ghost use Rattle.vlt_core.specs.Flow.{size, size_block, size_stmts, size_arms};
ghost use Rattle.vlt_flow.specs.Walks.{IfRefused};
ghost use Rattle.vlt_flow.specs.declared.errors.Stop.TheVariants.{Unfit};

use crate::errors::Stop;
use vlt_rows::{Flow, FlowArm, FlowBlock, FlowStmt};

fn add(a: usize, b: usize) -> Result<usize, Stop>
    ensures sum { IfOk result (λ n. n ≡ a + b) }
    ensures large { IfErr result (λ e.
        (e ≡ Unfit) × (2 ^ 62 ≤ a + b)) }
    ensures never { IfRefused result ⊥ }
{
    match a.checked_add(b) {
        Some(n) => Ok(n),
        None => Err(Stop::Unfit),
    }
}

/// How many statements a statement is, with those inside it. Never `Refused`.
#[cycle(count)]
pub fn count_form(form: &Flow) -> Result<usize, Stop>
    ensures count { IfOk result (λ n. n ≡ size (flow_view form.now)) }
    ensures large { IfErr result (λ e.
        (e ≡ Unfit) × (2 ^ 62 ≤ size (flow_view form.now))) }
    ensures never { IfRefused result ⊥ }
{
    match form {
        Flow::If {
            rows,
            then_block,
            else_block,
        } => {
            let first = count_block(then_block)?;
            let second = count_block(else_block)?;
            add(1, add(first, second)?)
        }
        Flow::While { rows, body } => add(1, count_block(body)?),
        Flow::Switch { rows, arms, end } => add(1, count_arms(arms.as_slice())?),
        Flow::Scope { body } => add(1, count_block(body)?),
        Flow::Focus { rows, body, after } => add(1, count_block(body)?),
        _ => Ok(1),
    }
}

/// How many statements a block has, with those inside them. Never `Refused`.
#[cycle(count)]
pub fn count_block(block: &FlowBlock) -> Result<usize, Stop>
    ensures count { IfOk result (λ n. n ≡ size_block (block_view block.now)) }
    ensures large { IfErr result (λ e.
        (e ≡ Unfit) × (2 ^ 62 ≤ size_block (block_view block.now))) }
    ensures never { IfRefused result ⊥ }
{
    count_list(block.stmts.as_slice())
}

#[cycle(count)]
fn count_list(stmts: &[FlowStmt]) -> Result<usize, Stop>
    ensures count { IfOk result (λ n. n ≡ size_stmts (stmts_view stmts.now)) }
    ensures large { IfErr result (λ e.
        (e ≡ Unfit) × (2 ^ 62 ≤ size_stmts (stmts_view stmts.now))) }
    ensures never { IfRefused result ⊥ }
{
    let mut sum = 0;
    for s in stmts {
        sum = add(sum, count_form(&s.flow)?)?;
    }
    Ok(sum)
}

#[cycle(count)]
fn count_arms(arms: &[FlowArm]) -> Result<usize, Stop>
    ensures count { IfOk result (λ n. n ≡ size_arms (arms_view arms.now)) }
    ensures large { IfErr result (λ e.
        (e ≡ Unfit) × (2 ^ 62 ≤ size_arms (arms_view arms.now))) }
    ensures never { IfRefused result ⊥ }
{
    let mut sum = 0;
    for arm in arms {
        sum = add(sum, count_block(&arm.body)?)?;
    }
    Ok(sum)
}
