//! The functions that stand for externals.

ghost use Rattle.std.specs.Prelude.{◌≡◌, ◌≤◌, ◌++◌, [], ◌∷◌, false, map, length, option_map, OnOk, IfOk};
ghost use Rattle.vlt_core.specs.View as view;
ghost use Rattle.c_syntax.specs.View.{func_of, stmt_of};
ghost use Rattle.c_lower.specs.Lowering.{func_with, lowered};
ghost use Rattle.c_lower_exprs.specs.Tables.{numbers_of};
ghost use Rattle.c_lower_exprs.specs.Scopes.{AreTables, IsScope, func_in, program_in};
ghost use Rattle.c_lower_calls.specs.Written.{Writes};
ghost use Rattle.c_lower_program.specs.Glue.Parts.{answer_code, call_code, glue_of, written};
ghost use Rattle.c_lower_program.specs.Glue.ManyCases.{gives_many_cases, has_many_cases, result_cases};

use crate::code::func_with;
use crate::glue::calls::question;
use crate::glue::cases::cases_of;
use crate::glue::keys::{Way, go_out, move_keys};
use crate::glue::payloads::Part;
use crate::glue::results::{give_back, push_clears, push_result, result_slots};
use crate::glue::states::pick_clause;
use c_lower_calls::call_none;
use c_lower_exprs::{ProgramTables, Scope, frame_slots};
use c_lower_stmts::Body;
use c_syntax::{CFunc, CPrim, CStmt, CVar};
use std::alloc::Global;
use vlt_base::{Items, Memory};
use vlt_core::{Func, Program, Ty};

/// What comes before the answer: the call, slots without values, and objects that go out.
fn push_call(
    alloc: Global,
    scope: &Scope<'_>,
    out: &mut Items<CStmt>,
    slots: &[CVar],
) -> Result<(), Memory>
    requires { IsScope scope.now }
    ensures { OnOk result (map stmt_of out.new ≡ map stmt_of out.old
        ++ call_code (program_in scope.now) (func_in scope.now) slots.now) }
{
    question(alloc, scope, out)?;
    push_clears(scope, out, slots)?;
    go_out(alloc, scope, out)
}

/// What comes of the answer: states and numbers, and objects that come back.
fn push_answer(
    alloc: Global,
    scope: &Scope<'_>,
    out: &mut Items<CStmt>,
    slots: &[CVar],
) -> Result<(), Memory>
    requires scope { IsScope scope.now }
    requires few { length (result_cases (program_in scope.now) (func_in scope.now).result) ≤ 63 }
    ensures { OnOk result (map stmt_of out.new ≡ map stmt_of out.old
        ++ answer_code (program_in scope.now) (func_in scope.now) slots.now) }
{
    pick_clause(alloc, scope, out)?;
    push_result(alloc, scope, out, Part::Numbers, slots)?;
    move_keys(alloc, scope, out, Way::Back)?;
    push_result(alloc, scope, out, Part::Backs, slots)?;
    call_none(alloc, out, CPrim::End)?;
    push_result(alloc, scope, out, Part::Objects, slots)
}

/// The statements of an external's function, whose result has these slots.
fn glue_stmts(alloc: Global, scope: &Scope<'_>, slots: &[CVar]) -> Result<Items<CStmt>, Memory>
    requires scope { IsScope scope.now }
    requires few { length (result_cases (program_in scope.now) (func_in scope.now).result) ≤ 63 }
    ensures { IfOk result (λ xs. map stmt_of xs
        ≡ written (program_in scope.now) (func_in scope.now) slots.now) }
{
    let mut stmts = Items::new(alloc);
    push_call(alloc, scope, &mut stmts, slots)?;
    push_answer(alloc, scope, &mut stmts, slots)?;
    give_back(alloc, scope, &mut stmts, slots)?;
    Ok(stmts)
}

/// The statements of an external's function, and the numbers after its temps.
fn glue_body(alloc: Global, scope: &Scope<'_>) -> Result<Body, Memory>
    requires scope { IsScope scope.now }
    requires few { length (result_cases (program_in scope.now) (func_in scope.now).result) ≤ 63 }
    ensures { IfOk result (λ x. Writes (glue_of (program_in scope.now) (func_in scope.now))
        [] (map stmt_of x.stmts) (numbers_of x.most)) }
{
    let slots = result_slots(alloc, scope)?;
    let stmts = glue_stmts(alloc, scope, slots.vars.as_slice())?;
    Ok(Body {
        stmts,
        most: slots.next,
    })
}

/// The function that stands for an external.
fn lower_external(
    alloc: Global,
    program: &Program,
    tables: &ProgramTables,
    number: u64,
    func: &Func,
) -> Result<CFunc, Memory>
    requires tables { AreTables (view.program_of program.now) tables.now }
    requires few { length (result_cases (view.program_of program.now)
        (view.func_of func.now).result) ≤ 63 }
    ensures { IfOk result (λ x. func_of x ≡ func_with (view.program_of program.now) number
        (view.func_of func.now) (glue_of (view.program_of program.now) (view.func_of func.now))) }
{
    let frame = frame_slots(alloc, program, &tables.variants, func)?;
    let scope = Scope {
        program,
        func,
        tables,
        frame: &frame,
    };
    let body = glue_body(alloc, &scope)?;
    func_with(alloc, &scope, number, body)
}

/// Whether a result is a variant of more than 63 cases.
fn has_many_cases(program: &Program, ty: &Option<Ty>) -> bool
    ensures { result
        ≡ has_many_cases (view.program_of program.now) (option_map view.ty_of ty.now) }
{
    match ty {
        Some(Ty::Var(t, _)) => cases_of(program, *t).len() >= 64,
        Some(Ty::OwnVar(t, _)) => cases_of(program, *t).len() >= 64,
        _ => false,
    }
}

/// Whether an external gives a variant of more than 63 cases. No number of C is the mask of so many, so no C program stands
/// for such a program.
pub fn gives_many_cases(program: &Program) -> bool
    ensures { result ≡ gives_many_cases (view.program_of program.now) }
{
    for func in program.fns.as_slice() {
        if func.external && has_many_cases(program, &func.result) {
            return true;
        }
    }
    false
}

/// The functions that stand for the externals, numbered from 0 in the order of the text.
pub fn lower_externals(
    alloc: Global,
    program: &Program,
    tables: &ProgramTables,
) -> Result<Items<CFunc>, Memory>
    requires tables { AreTables (view.program_of program.now) tables.now }
    requires few { gives_many_cases (view.program_of program.now) ≡ false }
    ensures { IfOk result (λ xs. map func_of xs ≡ (lowered (view.program_of program.now)).glue) }
{
    let mut made = Items::new(alloc);
    let mut number = 0;
    for func in program.fns.as_slice() {
        if func.external {
            made.push(lower_external(alloc, program, tables, number, func)?)?;
            number += 1;
        }
    }
    Ok(made)
}
