//! How many bytes expressions and calls take in the canonical text, as many as can be counted.

ghost use Rattle.std.specs.Prelude.{◌≡◌, ◌≤◌, ◌+◌, length, map};
ghost use Rattle.std.specs.Fmt.{decimal};
ghost use Rattle.c_syntax.specs.Spelling.{prefix_sign};
ghost use Rattle.c_syntax.specs.View.{arg_of, call_of, expr_of};
ghost use Rattle.c_reader_laws.specs.PrinterLaws.Sizes as s;
ghost use Rattle.c_lower_program.specs.Counts.{capped};

use c_syntax::{CArg, CCall, CCell, CExpr, CName, CVar};
use itoa::Buffer;
use vlt_ops::{Op, row};

/// The sum of three.
pub fn sum(a: u64, b: u64, c: u64) -> u64
    ensures { result ≡ capped (a + b + c) }
{
    a.saturating_add(b).saturating_add(c)
}

/// How many digits a number has.
pub fn digits(number: u64) -> u64
    ensures size { result ≡ length (decimal number) }
    ensures few { result ≤ 40 }
{
    let mut buffer = Buffer::new();
    buffer.format(number).len() as u64
}

pub fn variable_size(variable: CVar) -> u64
    ensures size { result ≡ s.variable_size variable }
    ensures few { result ≤ 42 }
{
    digits(variable.number) + 2
}

fn name_size(name: CName) -> u64
    ensures size { result ≡ s.name_size name }
    ensures few { result ≤ 42 }
{
    digits(name.number) + 2
}

/// A number of an expression, and the byte after it.
fn value_size(value: i64) -> u64
    ensures size { result ≡ s.number_size value }
    ensures few { result ≤ 41 }
{
    let mut buffer = Buffer::new();
    buffer.format(value).len() as u64 + 1
}

fn operator_size(op: Op) -> u64
    ensures { result ≡ capped (s.operator_size op) }
{
    (row(op).sign.len() as u64).saturating_add(1)
}

/// An operator before its operand.
fn prefix_size(op: Op) -> u64
    ensures { result ≡ capped (s.operator_size (prefix_sign op)) }
{
    match op {
        Op::Negate => operator_size(Op::Subtract),
        _ => operator_size(op),
    }
}

pub fn cell_size(cell: CCell) -> u64
    ensures size { result ≡ s.cell_size cell }
    ensures few { result ≤ 92 }
{
    match cell {
        CCell::Number { base, index } => digits(base) + digits(index) + 12,
        CCell::Reference { base, index } => digits(base) + digits(index) + 12,
    }
}

pub fn expr_size(expr: &CExpr) -> u64
    ensures { result ≡ capped (s.expr_size (expr_of expr.now)) }
{
    match expr {
        CExpr::Number(value) => value_size(*value),
        CExpr::Var(variable) => variable_size(*variable),
        CExpr::Cell(cell) => cell_size(*cell),
        CExpr::Null => 8,
        CExpr::Unary(op, operand) => sum(prefix_size(*op), expr_size(operand.get()), 4),
        CExpr::Binary(op, left, right) => {
            let operands = sum(
                expr_size(left.get()),
                operator_size(*op),
                expr_size(right.get()),
            );
            operands.saturating_add(4)
        }
    }
}

fn arg_size(arg: &CArg) -> u64
    ensures { result ≡ capped (s.arg_size (arg_of arg.now)) }
{
    match arg {
        CArg::Number(value) => value_size(*value),
        CArg::Var(variable) => variable_size(*variable),
        CArg::Null => 8,
        CArg::Text(name) => (name.len() as u64).saturating_add(3),
    }
}

/// The arguments after the first, and the closing parenthesis.
fn more_args_size(args: &[CArg]) -> u64
    ensures { result ≡ capped (s.more_args_size (map arg_of args.now)) }
{
    let mut size = 0;
    for arg in args {
        size = sum(size, arg_size(arg), 2);
    }
    size.saturating_add(2)
}

/// Arguments, and the closing parenthesis.
fn args_size(args: &[CArg]) -> u64
    ensures { result ≡ capped (s.args_size (map arg_of args.now)) }
{
    match args.split_first() {
        Some((first, rest)) => arg_size(first).saturating_add(more_args_size(rest)),
        None => 2,
    }
}

pub fn call_size(call: &CCall) -> u64
    ensures { result ≡ capped (s.call_size (call_of call.now)) }
{
    match call {
        CCall::Function(name, args) => sum(name_size(*name), 2, args_size(args.as_slice())),
        CCall::Primitive(primitive, args) => {
            let name = primitive.text().len() as u64;
            sum(name, 3, args_size(args.as_slice()))
        }
    }
}
