//! How many statements a program has, and how long the names are that it calls.

ghost use Rattle.std.specs.Prelude.{◌≡◌, ◌∷◌, map, min};
ghost use Rattle.c_syntax.specs.View.{stmt_of, stmts_of, call_of, arg_of, func_of, program_of};
ghost use Rattle.c_meaning.specs.Run.{count_in, count_in_stmt};
ghost use Rattle.c_meaning.specs.Widths.{most};
ghost use Rattle.c_machine.specs.Within.{length_of_name, name_in_call, name_in_stmt, name_in, name_of};
ghost use Rattle.c_machine.specs.Within as within;

use c_syntax::{CArg, CCall, CFunc, CPrim, CProgram, CStmt};

/// The statements in a statement, itself included, as many as can be counted.
#[cycle(counts)]
pub fn stmt_count(x: &CStmt) -> u32
    ensures { result ≡ min (count_in_stmt (stmt_of x.now)) 4294967295 }
{
    match x {
        CStmt::If(_, xs) => list_count(xs.as_slice()).saturating_add(1),
        CStmt::IfElse(_, xs, ys) => {
            let first = list_count(xs.as_slice()).saturating_add(1);
            first.saturating_add(list_count(ys.as_slice()))
        }
        CStmt::While(xs) => list_count(xs.as_slice()).saturating_add(1),
        CStmt::Set(..) | CStmt::SetCall(..) | CStmt::Call(_) | CStmt::Put(..) => 1,
        CStmt::Break | CStmt::Continue | CStmt::Return(_) => 1,
    }
}

/// The statements in a list, as many as can be counted.
#[cycle(counts)]
pub fn list_count(stmts: &[CStmt]) -> u32
    ensures { result ≡ min (count_in (stmts_of stmts.now)) 4294967295 }
{
    let mut count: u32 = 0;
    for x in stmts {
        count = count.saturating_add(stmt_count(x));
    }
    count
}

/// The length of the name in the arguments.
fn args_name(args: &[CArg]) -> usize
    ensures { result ≡ length_of_name (map arg_of args.now) }
{
    match args {
        [CArg::Text(text)] => text.as_slice().len(),
        _ => 0,
    }
}

/// The length of the name that is called.
fn call_name(call: &CCall) -> usize
    ensures { result ≡ name_in_call (call_of call.now) }
{
    match call {
        CCall::Primitive(CPrim::Call, args) => args_name(args.as_slice()),
        _ => 0,
    }
}

/// The length of the longest name in a statement.
#[cycle(names)]
fn stmt_name(x: &CStmt) -> usize
    ensures { result ≡ name_in_stmt (stmt_of x.now) }
{
    match x {
        CStmt::SetCall(_, call) => call_name(call),
        CStmt::Call(call) => call_name(call),
        CStmt::If(_, xs) => list_name(xs.as_slice()),
        CStmt::IfElse(_, xs, ys) => list_name(xs.as_slice()).max(list_name(ys.as_slice())),
        CStmt::While(xs) => list_name(xs.as_slice()),
        CStmt::Set(..) | CStmt::Put(..) | CStmt::Break | CStmt::Continue | CStmt::Return(_) => 0,
    }
}

/// The length of the longest name in statements.
#[cycle(names)]
fn list_name(stmts: &[CStmt]) -> usize
    ensures { result ≡ name_in (stmts_of stmts.now) }
{
    let mut most = 0;
    for x in stmts {
        most = most.max(stmt_name(x));
    }
    most
}

/// The length of the longest name in functions.
fn most_name(fns: &[CFunc]) -> usize
    ensures { result ≡ most name_of (map func_of fns.now) }
{
    let mut most = 0;
    for f in fns {
        most = most.max(list_name(f.body.as_slice()));
    }
    most
}

/// The length of the longest name that a program calls.
pub fn longest_name(p: &CProgram) -> usize
    ensures { result ≡ within.longest_name (program_of p.now) }
{
    most_name(p.glue.as_slice()).max(most_name(p.fns.as_slice()))
}
