//! The rows of expressions and operands.

ghost use Rattle.std.specs.Prelude.{map};
ghost use Rattle.vlt_core.specs.View.{program_of, func_of, expr_of, operand_of};
ghost use Rattle.vlt_core.specs.Rows.{expr_rows, operand_rows, operands_rows};
ghost use Rattle.vlt_rows.specs.Taking.{TookOrStopped};

use crate::pieces::{give_empty, give_key, give_touch};
use crate::sink::{RowError, RowSink};
use vlt_core::{After, Expr, Func, Operand, Program, Wanted};

/// The rows of an expression, from the left.
pub fn give_expr<S: RowSink>(p: &Program, f: &Func, e: &Expr, to: &mut S) -> Result<(), RowError>
    ensures { TookOrStopped S.takes S.stops (expr_rows (program_of p.now) (func_of f.now)
        (expr_of e.now)) to.old to.new result }
{
    match e {
        Expr::Field(x, position) => give_touch(p, f, *x, *position, to),
        Expr::Un(_, a) => give_expr(p, f, a.get(), to),
        Expr::Bin(_, a, b) => {
            give_expr(p, f, a.get(), to)?;
            give_expr(p, f, b.get(), to)
        }
        _ => Ok(()),
    }
}

pub fn give_operand<S: RowSink>(
    p: &Program,
    f: &Func,
    operand: &Operand,
    to: &mut S,
) -> Result<(), RowError>
    ensures { TookOrStopped S.takes S.stops (operand_rows (program_of p.now) (func_of f.now)
        (operand_of operand.now)) to.old to.new result }
{
    match operand {
        Operand::Pure(e) => give_expr(p, f, e, to),
        Operand::Move(v) => give_empty(*v, to),
        Operand::Pack(x, states) => give_key(f, *x, Wanted::In(*states), After::Absent, to),
    }
}

/// The rows of operands, one after another.
pub fn give_operands<S: RowSink>(
    p: &Program,
    f: &Func,
    operands: &[Operand],
    to: &mut S,
) -> Result<(), RowError>
    ensures { TookOrStopped S.takes S.stops (operands_rows (program_of p.now) (func_of f.now)
        (map operand_of operands.now)) to.old to.new result }
{
    for operand in operands {
        give_operand(p, f, operand, to)?;
    }
    Ok(())
}
