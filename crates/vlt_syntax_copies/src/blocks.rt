//! Statements and arms over blocks that are shifted already.

ghost use Rattle.std.specs.Prelude.{◌≡◌, IfOk};
ghost use Rattle.vlt_syntax.specs.Tree as t;
ghost use Rattle.vlt_syntax.specs.View.{name_of, names_of, expr_of, stmt_of, arm_of, arms_of, block_of, if_of, else_of};
ghost use Rattle.vlt_syntax_copies.specs.Mapped as m;
ghost use Rattle.vlt_syntax_copies.specs.Shifted as s;

use crate::exprs::shifted_expr;
use crate::names::{shifted_name, shifted_names, shifted_span};
use std::alloc::{AllocError, Global};
use vlt_base::{Boxed, Items, Span};
use vlt_syntax::{Arm, Block, Else, Expr, If, Name, Stmt};

pub fn shifted_while(
    alloc: Global,
    condition: &Expr,
    body: Block,
    at: Span,
    by: u32,
) -> Result<Stmt, AllocError>
    ensures { IfOk result (λ x. stmt_of x ≡ t.loop
        (m.mapped_expr (s.shifted_span by) (expr_of condition.now)) (block_of body)
        (s.shifted_span by at)) }
{
    Ok(Stmt::While {
        condition: shifted_expr(alloc, condition, by)?,
        body,
        at: shifted_span(at, by),
    })
}

pub fn shifted_switch(
    alloc: Global,
    variable: &Name,
    arms: Items<Arm>,
    at: Span,
    by: u32,
) -> Result<Stmt, AllocError>
    ensures { IfOk result (λ x. stmt_of x ≡ t.switch
        (m.mapped_name (s.shifted_span by) (name_of variable.now)) (arms_of arms)
        (s.shifted_span by at)) }
{
    Ok(Stmt::Switch {
        variable: shifted_name(alloc, variable, by)?,
        arms,
        at: shifted_span(at, by),
    })
}

pub fn shifted_focus(
    alloc: Global,
    variable: &Name,
    key: &Name,
    alias: &Name,
    body: Block,
    at: Span,
    by: u32,
) -> Result<Stmt, AllocError>
    ensures { IfOk result (λ x. stmt_of x ≡ t.focus
        (m.mapped_name (s.shifted_span by) (name_of variable.now))
        (m.mapped_name (s.shifted_span by) (name_of key.now))
        (m.mapped_name (s.shifted_span by) (name_of alias.now)) (block_of body)
        (s.shifted_span by at)) }
{
    Ok(Stmt::Focus {
        variable: shifted_name(alloc, variable, by)?,
        key: shifted_name(alloc, key, by)?,
        alias: shifted_name(alloc, alias, by)?,
        body,
        at: shifted_span(at, by),
    })
}

pub fn shifted_choice(
    alloc: Global,
    condition: &Expr,
    then_block: Block,
    otherwise: Else,
    at: Span,
    by: u32,
) -> Result<If, AllocError>
    ensures { IfOk result (λ i. if_of i ≡ t.choice
        (m.mapped_expr (s.shifted_span by) (expr_of condition.now)) (block_of then_block)
        (else_of otherwise) (s.shifted_span by at)) }
{
    Ok(If {
        condition: shifted_expr(alloc, condition, by)?,
        then_block,
        otherwise,
        at: shifted_span(at, by),
    })
}

/// The `if` after an `else`.
pub fn chained(alloc: Global, choice: If) -> Result<Else, AllocError>
    ensures { IfOk result (λ e. else_of e ≡ t.chained (if_of choice)) }
{
    Ok(Else::Chained(Boxed::new(alloc, choice)?))
}

pub fn shifted_case_arm(
    alloc: Global,
    case: &Name,
    variables: &[Name],
    body: Block,
    at: Span,
    by: u32,
) -> Result<Arm, AllocError>
    ensures { IfOk result (λ a. arm_of a ≡ (
      m.mapped_name (s.shifted_span by) (name_of case.now),
      m.mapped_names (s.shifted_span by) (names_of variables.now),
      block_of body,
      s.shifted_span by at,
    )) }
{
    Ok(Arm {
        case: shifted_name(alloc, case, by)?,
        variables: shifted_names(alloc, variables, by)?,
        body,
        at: shifted_span(at, by),
    })
}
