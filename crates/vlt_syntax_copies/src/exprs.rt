//! Expressions.

ghost use Rattle.std.specs.Prelude.{◌≡◌, IfOk, map};
ghost use Rattle.vlt_syntax.specs.Tree as t;
ghost use Rattle.vlt_syntax.specs.View.{name_of, expr_of};
ghost use Rattle.vlt_syntax_copies.specs.Mapped as m;
ghost use Rattle.vlt_syntax_copies.specs.Shifted as s;

use crate::names::{shifted_name, shifted_span};
use std::alloc::{AllocError, Global};
use vlt_base::{Boxed, Items};
use vlt_syntax::{Expr, Name, Operands};

/// A field of a variable.
fn shifted_access(alloc: Global, base: &Name, field: &Name, by: u32) -> Result<Expr, AllocError>
    ensures { IfOk result (λ e. expr_of e ≡ m.mapped_expr (s.shifted_span by)
        (t.field (name_of base.now) (name_of field.now))) }
{
    Ok(Expr::Field {
        base: shifted_name(alloc, base, by)?,
        field: shifted_name(alloc, field, by)?,
    })
}

#[cycle(copy)]
fn shifted_operands(alloc: Global, operands: &Operands, by: u32) -> Result<Operands, AllocError>
    ensures left { IfOk result (λ o. expr_of o.left
        ≡ m.mapped_expr (s.shifted_span by) (expr_of operands.now.left)) }
    ensures right { IfOk result (λ o. expr_of o.right
        ≡ m.mapped_expr (s.shifted_span by) (expr_of operands.now.right)) }
{
    Ok(Operands {
        left: shifted_expr(alloc, &operands.left, by)?,
        right: shifted_expr(alloc, &operands.right, by)?,
    })
}

#[cycle(copy)]
pub fn shifted_expr(alloc: Global, expr: &Expr, by: u32) -> Result<Expr, AllocError>
    ensures { IfOk result (λ e. expr_of e
        ≡ m.mapped_expr (s.shifted_span by) (expr_of expr.now)) }
{
    match expr {
        Expr::Number(number, at) => Ok(Expr::Number(*number, shifted_span(*at, by))),
        Expr::True(at) => Ok(Expr::True(shifted_span(*at, by))),
        Expr::False(at) => Ok(Expr::False(shifted_span(*at, by))),
        Expr::Variable(name) => Ok(Expr::Variable(shifted_name(alloc, name, by)?)),
        Expr::Field { base, field } => shifted_access(alloc, base, field, by),
        Expr::Group(inner, at) => {
            let inner = Boxed::new(alloc, shifted_expr(alloc, inner.get(), by)?)?;
            Ok(Expr::Group(inner, shifted_span(*at, by)))
        }
        Expr::Unary { op, operand, at } => {
            let operand = Boxed::new(alloc, shifted_expr(alloc, operand.get(), by)?)?;
            Ok(Expr::Unary {
                op: *op,
                operand,
                at: shifted_span(*at, by),
            })
        }
        Expr::Binary { op, operands, at } => {
            let operands = Boxed::new(alloc, shifted_operands(alloc, operands.get(), by)?)?;
            Ok(Expr::Binary {
                op: *op,
                operands,
                at: shifted_span(*at, by),
            })
        }
    }
}

pub fn shifted_exprs(alloc: Global, exprs: &[Expr], by: u32) -> Result<Items<Expr>, AllocError>
    ensures { IfOk result (λ es. map expr_of es
        ≡ map (m.mapped_expr (s.shifted_span by)) (map expr_of exprs.now)) }
{
    let mut made = Items::new(alloc);
    for expr in exprs {
        made.push(shifted_expr(alloc, expr, by)?)?;
    }
    Ok(made)
}
