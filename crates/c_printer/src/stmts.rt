//! Statements, each on lines of its own.

ghost use Rattle.std.specs.Prelude.{◌≡◌, OnOk};
ghost use Rattle.c_syntax.specs.View.{stmt_of, stmts_of};
ghost use Rattle.c_printer.specs.Layout.{stmt_laid, stmts_laid};

use crate::exprs::{write_call, write_cell, write_expr};
use crate::write::{write_text, write_variable};
use c_syntax::CStmt;
use vlt_base::Memory;

/// Writes a statement.
#[cycle(statements)]
fn write_stmt(out: &mut Vec<u8>, stmt: &CStmt) -> Result<(), Memory>
    ensures { OnOk result (out.new.items ≡ stmt_laid (stmt_of stmt.now) out.old.items) }
{
    match stmt {
        CStmt::Set(variable, value) => {
            write_variable(out, *variable)?;
            write_text(out, b" = ")?;
            write_expr(out, value)?;
            write_text(out, b";\n")
        }
        CStmt::SetCall(variable, call) => {
            write_variable(out, *variable)?;
            write_text(out, b" = ")?;
            write_call(out, call)?;
            write_text(out, b";\n")
        }
        CStmt::Call(call) => {
            write_call(out, call)?;
            write_text(out, b";\n")
        }
        CStmt::Put(cell, value) => {
            write_cell(out, *cell)?;
            write_text(out, b"= ")?;
            write_expr(out, value)?;
            write_text(out, b";\n")
        }
        CStmt::If(condition, body) => {
            write_text(out, b"if ( ")?;
            write_expr(out, condition)?;
            write_text(out, b") {\n")?;
            write_stmts(out, body.as_slice())?;
            write_text(out, b"}\n")
        }
        CStmt::IfElse(condition, then_body, else_body) => {
            write_text(out, b"if ( ")?;
            write_expr(out, condition)?;
            write_text(out, b") {\n")?;
            write_stmts(out, then_body.as_slice())?;
            write_text(out, b"} else {\n")?;
            write_stmts(out, else_body.as_slice())?;
            write_text(out, b"}\n")
        }
        CStmt::While(body) => {
            write_text(out, b"while ( 1 ) {\n")?;
            write_stmts(out, body.as_slice())?;
            write_text(out, b"}\n")
        }
        CStmt::Break => write_text(out, b"break ;\n"),
        CStmt::Continue => write_text(out, b"continue ;\n"),
        CStmt::Return(None) => write_text(out, b"return ;\n"),
        CStmt::Return(Some(value)) => {
            write_text(out, b"return ")?;
            write_expr(out, value)?;
            write_text(out, b";\n")
        }
    }
}

/// Writes statements.
#[cycle(statements)]
pub fn write_stmts(out: &mut Vec<u8>, stmts: &[CStmt]) -> Result<(), Memory>
    ensures { OnOk result (out.new.items ≡ stmts_laid (stmts_of stmts.now) out.old.items) }
{
    for stmt in stmts {
        write_stmt(out, stmt)?;
    }
    Ok(())
}
