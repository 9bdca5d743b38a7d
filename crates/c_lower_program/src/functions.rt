//! How many bytes functions and programs take in the canonical text, as many as can be counted.

ghost use Rattle.std.specs.Prelude.{◌≡◌, ◌≤◌, map};
ghost use Rattle.c_syntax.specs.View.{func_of, program_of};
ghost use Rattle.c_reader_laws.specs.PrinterLaws.Sizes as s;
ghost use Rattle.c_lower_program.specs.Counts.{capped};

use crate::exprs::{digits, sum, variable_size};
use crate::stmts::stmts_size;
use c_syntax::{CFunc, CProgram, CResult, CVar};

fn result_size(given: CResult) -> u64
    ensures { result ≡ s.result_size given }
{
    match given {
        CResult::Nothing => 5,
        CResult::Number => 10,
        CResult::Reference => 7,
    }
}

/// A variable with its type.
fn declaration_size(variable: CVar) -> u64
    ensures size { result ≡ s.declaration_size variable }
    ensures few { result ≤ 52 }
{
    let ty = if variable.reference { 7 } else { 10 };
    ty + variable_size(variable)
}

/// The parameters after the first, and the closing parenthesis.
fn more_params_size(params: &[CVar]) -> u64
    ensures { result ≡ capped (s.more_params_size params.now) }
{
    let mut size = 0;
    for &param in params {
        size = sum(size, declaration_size(param), 2);
    }
    size.saturating_add(2)
}

/// Parameters, and the closing parenthesis.
fn params_size(params: &[CVar]) -> u64
    ensures { result ≡ capped (s.params_size params.now) }
{
    match params.split_first() {
        Some((&first, rest)) => declaration_size(first).saturating_add(more_params_size(rest)),
        None => 7,
    }
}

fn vars_size(vars: &[CVar]) -> u64
    ensures { result ≡ capped (s.vars_size vars.now) }
{
    let mut size = 0;
    for &var in vars {
        size = sum(size, declaration_size(var), 2);
    }
    size
}

fn head_size(func: &CFunc) -> u64
    ensures { result ≡ capped (s.head_size (func_of func.now)) }
{
    let name = digits(func.number) + 4;
    sum(
        result_size(func.result),
        name,
        params_size(func.params.as_slice()),
    )
}

/// A function's head by itself, and then with its body.
fn func_size(func: &CFunc) -> u64
    ensures { result ≡ capped (s.func_size (func_of func.now)) }
{
    let head = head_size(func);
    let vars = vars_size(func.vars.as_slice());
    let body = stmts_size(func.body.as_slice());
    sum(sum(head, head, 6), vars, body)
}

fn funcs_size(funcs: &[CFunc]) -> u64
    ensures { result ≡ capped (s.funcs_size (map func_of funcs.now)) }
{
    let mut size: u64 = 0;
    for func in funcs {
        size = size.saturating_add(func_size(func));
    }
    size
}

/// How many bytes the canonical text of a program takes, or the greatest number where there are more.
pub fn program_size(program: &CProgram) -> u64
    ensures { result ≡ capped (s.program_size (program_of program.now)) }
{
    let main = match program.fns.get(program.main as usize) {
        Some(func) => digits(func.number),
        None => digits(0),
    };
    let glue = funcs_size(program.glue.as_slice());
    let fns = funcs_size(program.fns.as_slice());
    sum(main + 40, glue, fns)
}
