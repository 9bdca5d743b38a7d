//! How many bytes statements take in the canonical text, as many as can be counted.

ghost use Rattle.std.specs.Prelude.{◌≡◌};
ghost use Rattle.c_syntax.specs.View.{stmt_of, stmts_of};
ghost use Rattle.c_reader_laws.specs.PrinterLaws.Sizes as s;
ghost use Rattle.c_lower_program.specs.Counts.{capped};

use crate::exprs::{call_size, cell_size, expr_size, sum, variable_size};
use c_syntax::CStmt;

#[cycle(sizes)]
fn stmt_size(stmt: &CStmt) -> u64
    ensures { result ≡ capped (s.stmt_size (stmt_of stmt.now)) }
{
    match stmt {
        CStmt::Set(variable, value) => sum(variable_size(*variable), expr_size(value), 4),
        CStmt::SetCall(variable, call) => sum(variable_size(*variable), call_size(call), 4),
        CStmt::Call(call) => call_size(call).saturating_add(2),
        CStmt::Put(cell, value) => sum(cell_size(*cell), expr_size(value), 4),
        CStmt::If(condition, body) => sum(expr_size(condition), stmts_size(body.as_slice()), 11),
        CStmt::IfElse(condition, then_body, else_body) => {
            let chosen = sum(expr_size(condition), stmts_size(then_body.as_slice()), 20);
            chosen.saturating_add(stmts_size(else_body.as_slice()))
        }
        CStmt::While(body) => stmts_size(body.as_slice()).saturating_add(16),
        CStmt::Break => 8,
        CStmt::Continue => 11,
        CStmt::Return(None) => 9,
        CStmt::Return(Some(value)) => expr_size(value).saturating_add(9),
    }
}

#[cycle(sizes)]
pub fn stmts_size(stmts: &[CStmt]) -> u64
    ensures { result ≡ capped (s.stmts_size (stmts_of stmts.now)) }
{
    let mut size: u64 = 0;
    for stmt in stmts {
        size = size.saturating_add(stmt_size(stmt));
    }
    size
}
