//! Expressions.

ghost use Rattle.std.specs.Prelude.{◌≡◌, OnOk};
ghost use Rattle.vlt_syntax.specs.Tree.{Expr as SeenExpr};
ghost use Rattle.vlt_syntax.specs.View.{expr_of};
ghost use Rattle.vlt_printer.specs.Layout.{expr_after};

use crate::lists::{Part, write_text};
use crate::types::write_name;
use itoa::Buffer;
use vlt_base::Memory;
use vlt_ops::row;
use vlt_syntax::{Expr, Operands};

impl Part for Expr {
    ghost Seen = { SeenExpr };

    ghost view = { expr_of };

    ghost after = { expr_after };

    fn write(&self, out: &mut Vec<u8>) -> Result<(), Memory> {
        write_expr(out, self)
    }
}

pub fn write_expr(out: &mut Vec<u8>, expr: &Expr) -> Result<(), Memory>
    ensures { OnOk result (out.new.items ≡ expr_after (expr_of expr.now) out.old.items) }
{
    match expr {
        Expr::Number(value, _) => {
            let mut digits = Buffer::new();
            write_text(out, digits.format(*value).as_bytes())
        }
        Expr::True(_) => write_text(out, b"true"),
        Expr::False(_) => write_text(out, b"false"),
        Expr::Variable(name) => write_name(out, name),
        Expr::Field { base, field } => {
            write_name(out, base)?;
            write_text(out, b".")?;
            write_name(out, field)
        }
        Expr::Group(inner, _) => {
            write_text(out, b"(")?;
            write_expr(out, inner.get())?;
            write_text(out, b")")
        }
        Expr::Unary { op, operand, .. } => {
            write_text(out, row(*op).sign.as_bytes())?;
            write_expr(out, operand.get())
        }
        Expr::Binary { op, operands, .. } => {
            let Operands { left, right } = operands.get();
            write_expr(out, left)?;
            write_text(out, b" ")?;
            write_text(out, row(*op).sign.as_bytes())?;
            write_text(out, b" ")?;
            write_expr(out, right)
        }
    }
}
