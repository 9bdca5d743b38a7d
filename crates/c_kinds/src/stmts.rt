//! Statements.

ghost use Rattle.std.specs.Prelude.{◌≡◌, Bool, option_map};
ghost use Rattle.c_syntax.specs.C.{return};
ghost use Rattle.c_syntax.specs.Kinds as k;
ghost use Rattle.c_syntax.specs.View.{expr_of, stmt_of, stmts_of};
ghost use Rattle.c_kinds.specs.View.{scope_of, walk_of};

use crate::calls::call_type;
use crate::types::{Scope, cell_type, may_be, same_type};
use crate::walk::Walk;
use c_syntax::{CExpr, CResult, CStmt};

/// Whether a value of the second type can be set to a variable of the first. `void` is no type of a value.
fn can_set(want: Option<CResult>, got: Option<CResult>) -> bool
    ensures { result ≡ k.can_set want got }
{
    match got {
        None => true,
        Some(CResult::Nothing) => false,
        Some(got) => may_be(got, want),
    }
}

/// Whether a function with this result can return a value of that type.
fn can_return(want: CResult, got: Option<CResult>) -> bool
    ensures { result ≡ k.can_return want got }
{
    match got {
        None => !same_type(want, CResult::Nothing),
        Some(got) => same_type(want, got),
    }
}

impl Walk<'_> {
    fn condition(&mut self, scope: &Scope<'_>, own: u32, expr: &CExpr)
        ensures { walk_of self.new ≡ k.condition_judged (scope_of scope.now) own
            (expr_of expr.now) (walk_of self.old) }
    {
        self.skip(2);
        self.expr(scope, own, expr);
        self.unless(may_be(CResult::Number, scope.expr_type(expr)), own, 2);
        self.skip(2);
    }

    /// A value with the semicolon after it, and whether the rule of the statement is kept.
    fn value(&mut self, scope: &Scope<'_>, own: u32, expr: &CExpr, kept: bool, rule: u8)
        ensures { walk_of self.new ≡ k.skip 1 (k.unless kept own rule
            (k.expr_judged (scope_of scope.now) own (expr_of expr.now) (walk_of self.old))) }
    {
        self.expr(scope, own, expr);
        self.unless(kept, own, rule);
        self.skip(1);
    }

    /// What a `return` gives, the word included.
    fn returned(&mut self, scope: &Scope<'_>, own: u32, value: &Option<CExpr>)
        ensures { (in_loop : Bool) → walk_of self.new
            ≡ k.stmt_judged (scope_of scope.now) in_loop own
            (return (option_map expr_of value.now)) (walk_of self.old) }
    {
        match value {
            None => {
                self.unless(same_type(scope.result, CResult::Nothing), own, 5);
                self.skip(2);
            }
            Some(value) => {
                self.skip(1);
                let kept = can_return(scope.result, scope.expr_type(value));
                self.value(scope, own, value, kept, 5);
            }
        }
    }

    /// A statement that begins at `own`.
    #[cycle(statements)]
    fn stmt(&mut self, scope: &Scope<'_>, in_loop: bool, own: u32, stmt: &CStmt)
        ensures { walk_of self.new ≡ k.stmt_judged (scope_of scope.now) in_loop own
            (stmt_of stmt.now) (walk_of self.old) }
    {
        match stmt {
            CStmt::Set(variable, value) => {
                self.variable(scope, *variable);
                self.skip(1);
                let kept = can_set(scope.variable_type(*variable), scope.expr_type(value));
                self.value(scope, own, value, kept, 2);
            }
            CStmt::SetCall(variable, call) => {
                self.variable(scope, *variable);
                self.skip(1);
                self.call(scope, own, call);
                let kept = can_set(scope.variable_type(*variable), call_type(scope, call));
                self.unless(kept, own, 2);
                self.skip(1);
            }
            CStmt::Call(call) => {
                self.call(scope, own, call);
                self.skip(1);
            }
            CStmt::Put(cell, value) => {
                self.cell(scope, *cell);
                self.skip(1);
                let kept = may_be(cell_type(*cell), scope.expr_type(value));
                self.value(scope, own, value, kept, 2);
            }
            CStmt::If(condition, body) => {
                self.condition(scope, own, condition);
                self.stmts(scope, in_loop, body.as_slice());
                self.skip(1);
            }
            CStmt::IfElse(condition, then_body, else_body) => {
                self.condition(scope, own, condition);
                self.stmts(scope, in_loop, then_body.as_slice());
                self.skip(3);
                self.stmts(scope, in_loop, else_body.as_slice());
                self.skip(1);
            }
            CStmt::While(body) => {
                self.skip(5);
                self.stmts(scope, true, body.as_slice());
                self.skip(1);
            }
            CStmt::Break | CStmt::Continue => {
                self.unless(in_loop, own, 4);
                self.skip(2);
            }
            CStmt::Return(value) => self.returned(scope, own, value),
        }
    }

    #[cycle(statements)]
    pub fn stmts(&mut self, scope: &Scope<'_>, in_loop: bool, stmts: &[CStmt])
        ensures { walk_of self.new ≡ k.stmts_judged (scope_of scope.now) in_loop
            (stmts_of stmts.now) (walk_of self.old) }
    {
        for stmt in stmts {
            let own = self.place();
            self.stmt(scope, in_loop, own, stmt);
        }
    }
}
