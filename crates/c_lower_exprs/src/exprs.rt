//! Expressions, by the first atom of each, which is all that operators need.

ghost use Rattle.std.specs.Prelude.{◌≡◌, map, IfOk};
ghost use Rattle.vlt_core.specs.View as v;
ghost use Rattle.c_syntax.specs.View.{stmt_of};
ghost use Rattle.c_lower.specs.Expressions.{expr_code};
ghost use Rattle.c_lower_exprs.specs.Tables.{numbers_of};
ghost use Rattle.c_lower_exprs.specs.Scopes.{IsScope, func_in, program_in};
ghost use Rattle.c_lower_exprs.specs.Coded.{atom_of, lazy_kind, WritesValue};

use crate::atom::Atom;
use crate::numbers::Numbers;
use crate::reads::{field_atom, read_field, var_atom};
use crate::scope::Scope;
use crate::sorts::Sort;
use crate::temps::{Value, end_lazy, set_binary, set_temp, set_unary};
use c_syntax::CStmt;
use std::alloc::Global;
use vlt_base::{Items, Memory};
use vlt_core::Expr;
use vlt_ops::Op;

/// Of an operator whose right side is run only where the left one doesn't decide, whether it is `&&`.
fn lazy_kind(op: Op) -> Option<bool>
    ensures { result ≡ lazy_kind op }
{
    match op {
        Op::And => Some(true),
        Op::Or => Some(false),
        _ => None,
    }
}

/// Adds the code of an expression, and gives the first atom that has its value.
pub fn lower_value(
    alloc: Global,
    scope: &Scope<'_>,
    out: &mut Items<CStmt>,
    t: Numbers,
    expr: &Expr,
) -> Result<Value, Memory>
    requires { IsScope scope.now }
    ensures { IfOk result (λ x. WritesValue
        (expr_code (program_in scope.now) (func_in scope.now) (numbers_of t) (v.expr_of expr.now))
        (map stmt_of out.old) (map stmt_of out.new) (atom_of x.atom) (numbers_of x.next)) }
{
    match expr {
        Expr::Number(value) => Ok(Value {
            atom: Atom::Number(*value),
            next: t,
        }),
        Expr::Bool(value) => Ok(Value {
            atom: Atom::Number(i64::from(*value)),
            next: t,
        }),
        Expr::Var(v) => Ok(Value {
            atom: var_atom(scope, *v),
            next: t,
        }),
        Expr::Field(x, position) => {
            let next = read_field(scope, out, t, *x, *position)?;
            Ok(Value {
                atom: field_atom(scope, t, *x, *position),
                next,
            })
        }
        Expr::Un(op, operand) => {
            let value = lower_value(alloc, scope, out, t, operand.get())?;
            set_unary(alloc, out, value.next, *op, value.atom)
        }
        Expr::Bin(op, left, right) => {
            let left = lower_value(alloc, scope, out, t, left.get())?;
            match lazy_kind(*op) {
                None => {
                    let right = lower_value(alloc, scope, out, left.next, right.get())?;
                    set_binary(alloc, out, right.next, *op, left.atom, right.atom)
                }
                Some(is_and) => {
                    let temp = set_temp(out, left.next, Sort::Number, left.atom)?;
                    let mut body = Items::new(alloc);
                    let right = lower_value(alloc, scope, &mut body, temp.next, right.get())?;
                    end_lazy(alloc, out, is_and, temp.variable, body, right)
                }
            }
        }
    }
}
