//! Expressions, operands before their operator, and operands of statements.

ghost use Rattle.std.specs.Prelude.{◌≡◌, ◌∷◌, [], map, if◌then◌else◌, OnOk};
ghost use Rattle.cert_rows.specs.Parts.{nat, list};
ghost use Rattle.cert_rows.specs.Values.{tagged_list};
ghost use Rattle.cert_rows.specs.Expressions.{expr, operand as operand_part};
ghost use Rattle.cert_rows.specs.Expressions.{magnitude as magnitude_of, operator_data};
ghost use Rattle.vlt_core.specs.View.{expr_of, operand_of};
ghost use Rattle.cert_values.specs.Laid.{laid, expr_laid};

use crate::parts::put_mask;
use crate::text::CertText;
use std::alloc::AllocError;
use vlt_core::{Expr, Operand};
use vlt_ops::{Op, row};

/// The number itself, which has no sign in an expression.
fn magnitude(number: i64) -> u64
    ensures { result ≡ magnitude_of number }
{
    if number < 0 { 0 } else { number as u64 }
}

fn flag_number(truth: bool) -> u64
    ensures { result ≡ (if truth then 1 else 0) }
{
    if truth { 1 } else { 0 }
}

/// Writes a tag with a number.
pub fn put_numbered(out: &mut CertText, tag: &str, number: u64) -> Result<(), AllocError>
    ensures { OnOk result (out.new ≡ laid (tagged_list tag.now (nat number ∷ [])) out.old) }
{
    out.tag(tag)?;
    out.number(number)?;
    out.end()
}

/// Writes a tag with two numbers.
pub fn put_numbered_two(
    out: &mut CertText,
    tag: &str,
    first: u64,
    second: u64,
) -> Result<(), AllocError>
    ensures { OnOk result (out.new
        ≡ laid (tagged_list tag.now (nat first ∷ nat second ∷ [])) out.old) }
{
    out.tag(tag)?;
    out.number(first)?;
    out.number(second)?;
    out.end()
}

fn put_op(out: &mut CertText, op: Op) -> Result<(), AllocError>
    ensures { OnOk result (out.new ≡ laid (operator_data op) out.old) }
{
    put_numbered(out, "o", row(op).number as u64)
}

/// Writes the items of an expression.
fn put_items(out: &mut CertText, e: &Expr) -> Result<(), AllocError>
    ensures { OnOk result (out.new ≡ expr_laid (expr_of e.now) out.old) }
{
    match e {
        Expr::Number(number) => put_numbered(out, "n", magnitude(*number)),
        Expr::Bool(truth) => put_numbered(out, "b", flag_number(*truth)),
        Expr::Var(v) => put_numbered(out, "v", v.0 as u64),
        Expr::Field(x, field) => put_numbered_two(out, "f", x.0 as u64, *field as u64),
        Expr::Un(op, a) => {
            put_items(out, a.get())?;
            put_op(out, *op)
        }
        Expr::Bin(op, a, b) => {
            put_items(out, a.get())?;
            put_items(out, b.get())?;
            put_op(out, *op)
        }
    }
}

/// Writes an expression, as an array of its parts.
#[tactic(auto, using(crate::proofs::Each::expr_items_laid))]
pub fn put_expr(out: &mut CertText, e: &Expr) -> Result<(), AllocError>
    ensures { OnOk result (out.new ≡ laid (expr.data_of (expr_of e.now)) out.old) }
{
    out.begin()?;
    put_items(out, e)?;
    out.end()
}

/// Writes what is handed over.
pub fn put_operand(out: &mut CertText, operand: &Operand) -> Result<(), AllocError>
    ensures { OnOk result (out.new
        ≡ laid (operand_part.data_of (operand_of operand.now)) out.old) }
{
    match operand {
        Operand::Pure(e) => {
            out.tag("e")?;
            put_expr(out, e)?;
            out.end()
        }
        Operand::Move(v) => put_numbered(out, "m", v.0 as u64),
        Operand::Pack(x, states) => {
            out.tag("p")?;
            out.number(x.0 as u64)?;
            put_mask(out, *states)?;
            out.end()
        }
    }
}

/// Writes all that is handed over.
pub fn put_operands(out: &mut CertText, operands: &[Operand]) -> Result<(), AllocError>
    ensures { OnOk result (out.new ≡ laid (list (map operand_part.data_of
        (map operand_of operands.now))) out.old) }
{
    out.begin()?;
    for item in operands {
        put_operand(out, item)?;
    }
    out.end()
}
