//! Whether two C programs are the same, part by part.

ghost use Rattle.std.specs.Prelude.{◌≡◌, map, Decides, option_map};
ghost use Rattle.c_syntax.specs.View.{arg_of, call_of, expr_of, func_of, stmt_of, stmts_of};

use c_syntax::{CArg, CCall, CExpr, CFunc, CResult, CStmt, CVar};

/// Whether expressions are the same.
pub fn same_expr(a: &CExpr, b: &CExpr) -> bool
    ensures { Decides result (expr_of a.now ≡ expr_of b.now) }
{
    match (a, b) {
        (CExpr::Number(x), CExpr::Number(y)) => *x == *y,
        (CExpr::Var(x), CExpr::Var(y)) => *x == *y,
        (CExpr::Cell(x), CExpr::Cell(y)) => *x == *y,
        (CExpr::Null, CExpr::Null) => true,
        (CExpr::Unary(o, x), CExpr::Unary(p, y)) => *o == *p && same_expr(x.get(), y.get()),
        (CExpr::Binary(o, x, z), CExpr::Binary(p, y, w)) => {
            *o == *p && same_expr(x.get(), y.get()) && same_expr(z.get(), w.get())
        }
        _ => false,
    }
}

fn same_arg(a: &CArg, b: &CArg) -> bool
    ensures { Decides result (arg_of a.now ≡ arg_of b.now) }
{
    match (a, b) {
        (CArg::Number(x), CArg::Number(y)) => *x == *y,
        (CArg::Var(x), CArg::Var(y)) => *x == *y,
        (CArg::Null, CArg::Null) => true,
        (CArg::Text(x), CArg::Text(y)) => x.as_slice() == y.as_slice(),
        _ => false,
    }
}

fn same_args(a: &[CArg], b: &[CArg]) -> bool
    ensures { Decides result (map arg_of a.now ≡ map arg_of b.now) }
{
    let mut left = b;
    for x in a {
        let Some((y, rest)) = left.split_first() else {
            return false;
        };
        if !same_arg(x, y) {
            return false;
        }
        left = rest;
    }
    left.is_empty()
}

fn same_call(a: &CCall, b: &CCall) -> bool
    ensures { Decides result (call_of a.now ≡ call_of b.now) }
{
    match (a, b) {
        (CCall::Function(f, xs), CCall::Function(g, ys)) => {
            *f == *g && same_args(xs.as_slice(), ys.as_slice())
        }
        (CCall::Primitive(f, xs), CCall::Primitive(g, ys)) => {
            *f == *g && same_args(xs.as_slice(), ys.as_slice())
        }
        _ => false,
    }
}

fn same_value(a: &Option<CExpr>, b: &Option<CExpr>) -> bool
    ensures { Decides result (option_map expr_of a.now ≡ option_map expr_of b.now) }
{
    match (a, b) {
        (None, None) => true,
        (Some(x), Some(y)) => same_expr(x, y),
        _ => false,
    }
}

#[cycle(same)]
pub fn same_stmt(a: &CStmt, b: &CStmt) -> bool
    ensures { Decides result (stmt_of a.now ≡ stmt_of b.now) }
{
    match (a, b) {
        (CStmt::Set(v, x), CStmt::Set(w, y)) => *v == *w && same_expr(x, y),
        (CStmt::SetCall(v, f), CStmt::SetCall(w, g)) => *v == *w && same_call(f, g),
        (CStmt::Call(f), CStmt::Call(g)) => same_call(f, g),
        (CStmt::Put(c, x), CStmt::Put(d, y)) => *c == *d && same_expr(x, y),
        (CStmt::If(x, xs), CStmt::If(y, ys)) => {
            same_expr(x, y) && same_stmts(xs.as_slice(), ys.as_slice())
        }
        (CStmt::IfElse(x, xs, zs), CStmt::IfElse(y, ys, ws)) => {
            same_expr(x, y)
                && same_stmts(xs.as_slice(), ys.as_slice())
                && same_stmts(zs.as_slice(), ws.as_slice())
        }
        (CStmt::While(xs), CStmt::While(ys)) => same_stmts(xs.as_slice(), ys.as_slice()),
        (CStmt::Break, CStmt::Break) => true,
        (CStmt::Continue, CStmt::Continue) => true,
        (CStmt::Return(x), CStmt::Return(y)) => same_value(x, y),
        _ => false,
    }
}

#[cycle(same)]
fn same_stmts(a: &[CStmt], b: &[CStmt]) -> bool
    ensures { Decides result (stmts_of a.now ≡ stmts_of b.now) }
{
    let mut left = b;
    for x in a {
        let Some((y, rest)) = left.split_first() else {
            return false;
        };
        if !same_stmt(x, y) {
            return false;
        }
        left = rest;
    }
    left.is_empty()
}

pub fn same_result(a: CResult, b: CResult) -> bool
    ensures { Decides result (a ≡ b) }
{
    a == b
}

fn same_variable(a: CVar, b: CVar) -> bool
    ensures { Decides result (a ≡ b) }
{
    a == b
}

pub fn same_vars(a: &[CVar], b: &[CVar]) -> bool
    ensures { Decides result (a.now ≡ b.now) }
{
    let mut left = b;
    for &x in a {
        let Some((&y, rest)) = left.split_first() else {
            return false;
        };
        if !same_variable(x, y) {
            return false;
        }
        left = rest;
    }
    left.is_empty()
}

/// Whether two functions are the same.
#[tactic(auto, using(crate::proofs::Parts::funcs_from))]
fn same_func(a: &CFunc, b: &CFunc) -> bool
    ensures { Decides result (func_of a.now ≡ func_of b.now) }
{
    if a.number != b.number {
        return false;
    }
    if !same_result(a.result, b.result) {
        return false;
    }
    if !same_vars(a.params.as_slice(), b.params.as_slice()) {
        return false;
    }
    if !same_vars(a.vars.as_slice(), b.vars.as_slice()) {
        return false;
    }
    same_stmts(a.body.as_slice(), b.body.as_slice())
}

/// Whether functions are the same.
pub fn same_funcs(a: &[CFunc], b: &[CFunc]) -> bool
    ensures { Decides result (map func_of a.now ≡ map func_of b.now) }
{
    let mut left = b;
    for x in a {
        let Some((y, rest)) = left.split_first() else {
            return false;
        };
        if !same_func(x, y) {
            return false;
        }
        left = rest;
    }
    left.is_empty()
}
