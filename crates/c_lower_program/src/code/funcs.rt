//! Functions with a body.

ghost use Rattle.std.specs.Prelude.{◌≡◌, [], map, IfOk};
ghost use Rattle.vlt_core.specs.View as view;
ghost use Rattle.c_syntax.specs.View.{func_of, stmt_of};
ghost use Rattle.c_lower.specs.Slots.{first_temps};
ghost use Rattle.c_lower.specs.Statements.{list_code, stmt_code};
ghost use Rattle.c_lower.specs.Lowering.{func_with, lowered};
ghost use Rattle.c_lower_exprs.specs.Tables.{numbers_of};
ghost use Rattle.c_lower_exprs.specs.Scopes.{AreTables, IsScope, func_in, program_in};
ghost use Rattle.c_lower_calls.specs.Written.{Writes};

use crate::code::heads::{params_of, result_of, vars_between};
use c_lower_exprs::{ProgramTables, Scope, frame_slots};
use c_lower_stmts::{Body, lower_stmts};
use c_syntax::CFunc;
use std::alloc::Global;
use vlt_base::{Items, Memory};
use vlt_core::{Func, Program};

/// The function of a body.
pub fn func_with(alloc: Global, scope: &Scope<'_>, number: u64, body: Body) -> Result<CFunc, Memory>
    requires { IsScope scope.now }
    ensures { IfOk result (λ x. func_of x ≡ func_with (program_in scope.now) number
        (func_in scope.now) (stmt_code (map stmt_of body.stmts) (numbers_of body.most))) }
{
    let params = params_of(alloc, scope)?;
    let vars = vars_between(alloc, params.next, scope.frame.temps.most(body.most))?;
    Ok(CFunc {
        number,
        result: result_of(&scope.func.result),
        params: params.vars,
        vars,
        body: body.stmts,
    })
}

/// The statements of a function with a body.
fn lower_body(alloc: Global, scope: &Scope<'_>) -> Result<Body, Memory>
    requires { IsScope scope.now }
    ensures { IfOk result (λ x. Writes (list_code (program_in scope.now) (func_in scope.now)
        (first_temps (program_in scope.now) (func_in scope.now)) (func_in scope.now).body)
        [] (map stmt_of x.stmts) (numbers_of x.most)) }
{
    let mut stmts = Items::new(alloc);
    let body = scope.func.body.as_slice();
    let most = lower_stmts(alloc, scope, body, &mut stmts, scope.frame.temps)?;
    Ok(Body { stmts, most })
}

/// A function with a body.
fn lower_func(
    alloc: Global,
    program: &Program,
    tables: &ProgramTables,
    number: u64,
    func: &Func,
) -> Result<CFunc, Memory>
    requires { AreTables (view.program_of program.now) tables.now }
    ensures { IfOk result (λ x. func_of x ≡ func_with (view.program_of program.now) number
        (view.func_of func.now) (list_code (view.program_of program.now) (view.func_of func.now)
        (first_temps (view.program_of program.now) (view.func_of func.now))
        (view.func_of func.now).body)) }
{
    let frame = frame_slots(alloc, program, &tables.variants, func)?;
    let scope = Scope {
        program,
        func,
        tables,
        frame: &frame,
    };
    let body = lower_body(alloc, &scope)?;
    func_with(alloc, &scope, number, body)
}

/// All functions with a body, numbered from 0 in the order of the text.
pub fn lower_bodies(
    alloc: Global,
    program: &Program,
    tables: &ProgramTables,
) -> Result<Items<CFunc>, Memory>
    requires { AreTables (view.program_of program.now) tables.now }
    ensures { IfOk result (λ xs. map func_of xs ≡ (lowered (view.program_of program.now)).fns) }
{
    let mut made = Items::new(alloc);
    let mut number = 0;
    for func in program.fns.as_slice() {
        if !func.external {
            made.push(lower_func(alloc, program, tables, number, func)?)?;
            number += 1;
        }
    }
    Ok(made)
}
