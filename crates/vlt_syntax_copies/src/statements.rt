//! Statements.

ghost use Rattle.std.specs.Prelude.{◌≡◌, IfOk, map};
ghost use Rattle.vlt_syntax.specs.View.{stmt_of, arm_of, block_of, if_of, else_of};
ghost use Rattle.vlt_syntax_copies.specs.Mapped as m;
ghost use Rattle.vlt_syntax_copies.specs.Shifted as s;
ghost use Rattle.vlt_syntax_copies.specs.Arms.{mapped_arm};

use crate::blocks::{
    chained, shifted_case_arm, shifted_choice, shifted_focus, shifted_switch, shifted_while,
};
use crate::names::shifted_span;
use crate::simple::{
    shifted_assign, shifted_become, shifted_call_stmt, shifted_declare, shifted_open,
    shifted_print, shifted_put, shifted_release, shifted_return, shifted_swap,
};
use std::alloc::{AllocError, Global};
use vlt_base::Items;
use vlt_syntax::{Arm, Block, Else, If, Stmt};

#[cycle(copy)]
fn shifted_stmts(alloc: Global, stmts: &[Stmt], by: u32) -> Result<Items<Stmt>, AllocError>
    ensures { IfOk result (λ xs. map stmt_of xs
        ≡ map (m.mapped_stmt (s.shifted_span by)) (map stmt_of stmts.now)) }
{
    let mut made = Items::new(alloc);
    for stmt in stmts {
        made.push(shifted_stmt(alloc, stmt, by)?)?;
    }
    Ok(made)
}

#[cycle(copy)]
fn shifted_stmt(alloc: Global, stmt: &Stmt, by: u32) -> Result<Stmt, AllocError>
    ensures { IfOk result (λ x. stmt_of x
        ≡ m.mapped_stmt (s.shifted_span by) (stmt_of stmt.now)) }
{
    match stmt {
        Stmt::Declare {
            ty,
            name,
            value,
            at,
        } => shifted_declare(alloc, ty, name, value, *at, by),
        Stmt::Assign { name, value, at } => shifted_assign(alloc, name, value, *at, by),
        Stmt::Put {
            base,
            field,
            value,
            at,
        } => shifted_put(alloc, base, field, value, *at, by),
        Stmt::Call(call, at) => shifted_call_stmt(alloc, call, *at, by),
        Stmt::Print(expr, at) => shifted_print(alloc, expr, *at, by),
        Stmt::Block(block) => Ok(Stmt::Block(shifted_block(alloc, block, by)?)),
        Stmt::If(choice) => Ok(Stmt::If(shifted_if(alloc, choice, by)?)),
        Stmt::While {
            condition,
            body,
            at,
        } => {
            let body = shifted_block(alloc, body, by)?;
            shifted_while(alloc, condition, body, *at, by)
        }
        Stmt::Break(at) => Ok(Stmt::Break(shifted_span(*at, by))),
        Stmt::Continue(at) => Ok(Stmt::Continue(shifted_span(*at, by))),
        Stmt::Return(returned, at) => shifted_return(alloc, returned, *at, by),
        Stmt::Switch { variable, arms, at } => {
            let arms = shifted_arms(alloc, arms.as_slice(), by)?;
            shifted_switch(alloc, variable, arms, *at, by)
        }
        Stmt::Release(name, at) => shifted_release(alloc, name, *at, by),
        Stmt::Become {
            variable,
            state,
            at,
        } => shifted_become(alloc, variable, state, *at, by),
        Stmt::Swap {
            base,
            field,
            variable,
            at,
        } => shifted_swap(alloc, base, field, variable, *at, by),
        Stmt::Open {
            variable,
            parts,
            at,
        } => shifted_open(alloc, variable, parts.as_slice(), *at, by),
        Stmt::Focus {
            variable,
            key,
            alias,
            body,
            at,
        } => {
            let body = shifted_block(alloc, body, by)?;
            shifted_focus(alloc, variable, key, alias, body, *at, by)
        }
    }
}

#[cycle(copy)]
pub fn shifted_block(alloc: Global, block: &Block, by: u32) -> Result<Block, AllocError>
    ensures { IfOk result (λ b. block_of b
        ≡ m.mapped_block (s.shifted_span by) (block_of block.now)) }
{
    let stmts = shifted_stmts(alloc, block.stmts.as_slice(), by)?;
    Ok(Block {
        stmts,
        at: shifted_span(block.at, by),
    })
}

#[cycle(copy)]
fn shifted_if(alloc: Global, choice: &If, by: u32) -> Result<If, AllocError>
    ensures { IfOk result (λ i. if_of i ≡ m.mapped_if (s.shifted_span by) (if_of choice.now)) }
{
    let then_block = shifted_block(alloc, &choice.then_block, by)?;
    let otherwise = shifted_else(alloc, &choice.otherwise, by)?;
    shifted_choice(
        alloc,
        &choice.condition,
        then_block,
        otherwise,
        choice.at,
        by,
    )
}

#[cycle(copy)]
fn shifted_else(alloc: Global, other: &Else, by: u32) -> Result<Else, AllocError>
    ensures { IfOk result (λ e. else_of e
        ≡ m.mapped_else (s.shifted_span by) (else_of other.now)) }
{
    match other {
        Else::Nothing => Ok(Else::Nothing),
        Else::Last(block) => Ok(Else::Last(shifted_block(alloc, block, by)?)),
        Else::Chained(choice) => chained(alloc, shifted_if(alloc, choice.get(), by)?),
    }
}

#[cycle(copy)]
fn shifted_arms(alloc: Global, arms: &[Arm], by: u32) -> Result<Items<Arm>, AllocError>
    ensures { IfOk result (λ xs. map arm_of xs
        ≡ map (mapped_arm (s.shifted_span by)) (map arm_of arms.now)) }
{
    let mut made = Items::new(alloc);
    for arm in arms {
        made.push(shifted_arm(alloc, arm, by)?)?;
    }
    Ok(made)
}

#[cycle(copy)]
fn shifted_arm(alloc: Global, arm: &Arm, by: u32) -> Result<Arm, AllocError>
    ensures { IfOk result (λ a. arm_of a ≡ mapped_arm (s.shifted_span by) (arm_of arm.now)) }
{
    let body = shifted_block(alloc, &arm.body, by)?;
    shifted_case_arm(alloc, &arm.case, arm.variables.as_slice(), body, arm.at, by)
}
