//! How large the tables of a run have to be.

ghost use Rattle.std.specs.Prelude.{◌≡◌, ◌<◌, ◌≤◌, ◌↔◌, ◌^◌, ◌+◌, IsTrue, IfSome, map, ℕ};
ghost use Rattle.vlt_base.specs.Limits.{limit_of};
ghost use Rattle.vlt_base.specs.declared.limits.TheConstants as limits;
ghost use Rattle.c_syntax.specs.View.{stmt_of, stmts_of, call_of, func_of, program_of};
ghost use Rattle.c_machine.specs.Bounds.{need_of, need, inner, tall_of};
ghost use Rattle.c_meaning.specs.Widths.{most, width_of, cells_of, cells_in, cells_in_stmt, cells_in_call, slots_needed};
ghost use Rattle.c_meaning.specs.Widths as widths;

use c_syntax::{CArg, CCall, CFunc, CPrim, CProgram, CStmt};
use vlt_base::{VALUE_SLOTS, limit};

/// The cells that a call asks for.
fn call_cells(call: &CCall) -> u128
    ensures { result ≡ cells_in_call (call_of call.now) }
{
    match call {
        CCall::Primitive(CPrim::New, args) => match args.as_slice() {
            [CArg::Number(a), CArg::Number(b)] => {
                if *a >= 0 && *b >= 0 {
                    *a as u128 + *b as u128
                } else {
                    0
                }
            }
            _ => 0,
        },
        _ => 0,
    }
}

/// The names of the function that has most of them.
fn widest(fns: &[CFunc]) -> u128
    ensures most { result ≡ most width_of (map func_of fns.now) }
    ensures few { result < 2 ^ 66 }
{
    let mut widest = 0;
    for f in fns {
        widest = widest.max(f.params.len() as u128 + f.vars.len() as u128);
    }
    widest
}

/// The names of the widest function and of the widest glue together.
pub fn value_slots(p: &CProgram) -> u128
    ensures { result ≡ widths.value_slots (program_of p.now) }
{
    widest(p.fns.as_slice()) + widest(p.glue.as_slice())
}

/// The most cells that a statement asks for.
#[cycle(cells)]
fn stmt_cells(x: &CStmt) -> u128
    ensures { result ≡ cells_in_stmt (stmt_of x.now) }
{
    match x {
        CStmt::SetCall(_, call) => call_cells(call),
        CStmt::Call(call) => call_cells(call),
        CStmt::If(_, xs) => list_cells(xs.as_slice()),
        CStmt::IfElse(_, xs, ys) => list_cells(xs.as_slice()).max(list_cells(ys.as_slice())),
        CStmt::While(xs) => list_cells(xs.as_slice()),
        CStmt::Set(..) | CStmt::Put(..) | CStmt::Break | CStmt::Continue | CStmt::Return(_) => 0,
    }
}

/// The most cells that statements ask for.
#[cycle(cells)]
fn list_cells(stmts: &[CStmt]) -> u128
    ensures { result ≡ cells_in (stmts_of stmts.now) }
{
    let mut most = 0;
    for x in stmts {
        most = most.max(stmt_cells(x));
    }
    most
}

/// The most cells of a block that functions ask for.
fn most_cells(fns: &[CFunc]) -> u128
    ensures { result ≡ most cells_of (map func_of fns.now) }
{
    let mut most = 0;
    for f in fns {
        most = most.max(list_cells(f.body.as_slice()));
    }
    most
}

/// The most cells that one block is asked to have.
pub fn block_cells(p: &CProgram) -> u128
    ensures { result ≡ widths.block_cells (program_of p.now) }
{
    most_cells(p.glue.as_slice()).max(most_cells(p.fns.as_slice()))
}

/// Whether so many frames and blocks could have more values than a machine may have.
pub fn is_too_wide(p: &CProgram, depth: u32, heap: u32) -> bool
    ensures { IsTrue result ↔
        (limit_of limits.VALUE_SLOTS < slots_needed (program_of p.now) depth heap) }
{
    let frames = u128::from(depth).saturating_mul(value_slots(p));
    let blocks = u128::from(heap).saturating_mul(block_cells(p));
    frames.saturating_add(blocks) > u128::from(limit(VALUE_SLOTS))
}

/// The tasks that a statement needs, those that are left after it included; none where they can't be counted.
#[cycle(needs)]
fn stmt_need(x: &CStmt) -> Option<u64>
    ensures { IfSome result (λ n. n ≡ inner (stmt_of x.now)) }
{
    match x {
        CStmt::If(_, xs) => list_need(xs.as_slice())?.checked_add(1),
        CStmt::IfElse(_, xs, ys) => {
            let first = list_need(xs.as_slice())?;
            let second = list_need(ys.as_slice())?;
            first.max(second).checked_add(1)
        }
        CStmt::While(xs) => list_need(xs.as_slice())?.checked_add(2),
        CStmt::Set(..) | CStmt::SetCall(..) | CStmt::Call(_) | CStmt::Put(..) => Some(1),
        CStmt::Break | CStmt::Continue | CStmt::Return(_) => Some(1),
    }
}

/// The tasks that statements need.
#[cycle(needs)]
fn list_need(stmts: &[CStmt]) -> Option<u64>
    ensures { IfSome result (λ n. n ≡ need (stmts_of stmts.now)) }
{
    let mut most = 1;
    for x in stmts {
        most = most.max(stmt_need(x)?);
    }
    Some(most)
}

/// The most tasks that one of the functions needs.
fn most_need(fns: &[CFunc]) -> Option<u64>
    ensures { IfSome result (λ n. n ≡ most need_of (map func_of fns.now)) }
{
    let mut most = 0;
    for f in fns {
        most = most.max(list_need(f.body.as_slice())?);
    }
    Some(most)
}

/// How many tasks a frame can need at most; none where they can't be counted.
pub fn tall(p: &CProgram) -> Option<u64>
    ensures { IfSome result (λ n. n ≡ tall_of (program_of p.now)) }
{
    let glue = most_need(p.glue.as_slice())?;
    let fns = most_need(p.fns.as_slice())?;
    Some(glue.max(fns))
}
