//! Cells, expressions and calls.

ghost use Rattle.std.specs.Prelude.{◌≡◌, map, OnOk};
ghost use Rattle.c_syntax.specs.Spelling.{prefix_sign};
ghost use Rattle.c_syntax.specs.View.{arg_of, call_of, expr_of};
ghost use Rattle.c_printer.specs.Layout.{arg_laid, args_laid, call_laid, cell_laid, expr_laid, more_args_laid, operator_laid};

use crate::write::{write_byte, write_name, write_number, write_text, write_value, write_variable};
use c_syntax::{CArg, CCall, CCell, CExpr, CVar};
use vlt_base::Memory;
use vlt_ops::{Op, row};

/// Writes a cell.
pub fn write_cell(out: &mut Vec<u8>, cell: CCell) -> Result<(), Memory>
    ensures { OnOk result (out.new.items ≡ cell_laid cell out.old.items) }
{
    let (base, index) = match cell {
        CCell::Number { base, index } => (base, index),
        CCell::Reference { base, index } => (base, index),
    };
    write_variable(
        out,
        CVar {
            reference: true,
            number: base,
        },
    )?;
    match cell {
        CCell::Number { .. } => write_text(out, b" -> n [ ")?,
        CCell::Reference { .. } => write_text(out, b" -> r [ ")?,
    }
    write_number(out, index)?;
    write_text(out, b" ] ")
}

/// Writes the sign of an operator.
fn write_operator(out: &mut Vec<u8>, op: Op) -> Result<(), Memory>
    ensures { OnOk result (out.new.items ≡ operator_laid op out.old.items) }
{
    write_text(out, row(op).sign.as_bytes())?;
    write_byte(out, b' ')
}

/// Writes the sign of an operator before its operand.
fn write_prefix(out: &mut Vec<u8>, op: Op) -> Result<(), Memory>
    ensures { OnOk result (out.new.items ≡ operator_laid (prefix_sign op) out.old.items) }
{
    match op {
        Op::Negate => write_operator(out, Op::Subtract),
        _ => write_operator(out, op),
    }
}

/// Writes an expression.
pub fn write_expr(out: &mut Vec<u8>, expr: &CExpr) -> Result<(), Memory>
    ensures { OnOk result (out.new.items ≡ expr_laid (expr_of expr.now) out.old.items) }
{
    match expr {
        CExpr::Number(value) => {
            write_value(out, *value)?;
            write_byte(out, b' ')
        }
        CExpr::Var(variable) => {
            write_variable(out, *variable)?;
            write_byte(out, b' ')
        }
        CExpr::Cell(cell) => write_cell(out, *cell),
        CExpr::Null => write_text(out, b"vr_null "),
        CExpr::Unary(op, operand) => {
            write_text(out, b"( ")?;
            write_prefix(out, *op)?;
            write_expr(out, operand.get())?;
            write_text(out, b") ")
        }
        CExpr::Binary(op, left, right) => {
            write_text(out, b"( ")?;
            write_expr(out, left.get())?;
            write_operator(out, *op)?;
            write_expr(out, right.get())?;
            write_text(out, b") ")
        }
    }
}

/// Writes an argument.
fn write_arg(out: &mut Vec<u8>, arg: &CArg) -> Result<(), Memory>
    ensures { OnOk result (out.new.items ≡ arg_laid (arg_of arg.now) out.old.items) }
{
    match arg {
        CArg::Number(value) => {
            write_value(out, *value)?;
            write_byte(out, b' ')
        }
        CArg::Var(variable) => {
            write_variable(out, *variable)?;
            write_byte(out, b' ')
        }
        CArg::Null => write_text(out, b"vr_null "),
        CArg::Text(name) => {
            write_byte(out, b'"')?;
            write_text(out, name.as_slice())?;
            write_text(out, b"\" ")
        }
    }
}

/// Writes the arguments after the first, and the closing parenthesis.
fn write_more_args(out: &mut Vec<u8>, args: &[CArg]) -> Result<(), Memory>
    ensures { OnOk result (out.new.items ≡ more_args_laid (map arg_of args.now) out.old.items) }
{
    for arg in args {
        write_text(out, b", ")?;
        write_arg(out, arg)?;
    }
    write_text(out, b") ")
}

/// Writes arguments, and the closing parenthesis.
fn write_args(out: &mut Vec<u8>, args: &[CArg]) -> Result<(), Memory>
    ensures { OnOk result (out.new.items ≡ args_laid (map arg_of args.now) out.old.items) }
{
    match args.split_first() {
        Some((first, rest)) => {
            write_arg(out, first)?;
            write_more_args(out, rest)
        }
        None => write_text(out, b") "),
    }
}

/// Writes a call.
pub fn write_call(out: &mut Vec<u8>, call: &CCall) -> Result<(), Memory>
    ensures { OnOk result (out.new.items ≡ call_laid (call_of call.now) out.old.items) }
{
    match call {
        CCall::Function(name, args) => {
            write_name(out, *name)?;
            write_text(out, b" ( ")?;
            write_args(out, args.as_slice())
        }
        CCall::Primitive(primitive, args) => {
            write_text(out, primitive.text().as_bytes())?;
            write_text(out, b" ( ")?;
            write_args(out, args.as_slice())
        }
    }
}
