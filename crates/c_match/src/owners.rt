//! The owners of a lowering's pieces: the number of the core statement in whose own code each is. In the cycle of calls the
//! tree is passed before what is added to: what shrinks is the first recursive parameter.

ghost use Rattle.std.specs.Prelude.{◌≡◌, ◌+◌, ◌++◌, [], map, replicate, slice_get, if◌then◌else◌, Some, IfOk, OnOk};
ghost use Rattle.std.specs.Option.{unwrap_or};
ghost use Rattle.vlt_core.specs.View as view;
ghost use Rattle.c_syntax.specs.View.{func_of, stmts_of};
ghost use Rattle.c_lower.specs.Expressions.{expr_code};
ghost use Rattle.c_lower.specs.Slots.{first_temps};
ghost use Rattle.c_lower.specs.Statements.{arm_copies, case_positions, form_code, variant_type};
ghost use Rattle.c_lower.specs.Lowering.{lowered};
ghost use Rattle.c_lower_exprs.specs.Tables.{numbers_of};
ghost use Rattle.c_lower_exprs.specs.Scopes.{AreTables, IsScope, func_in, program_in};
ghost use Rattle.c_match.specs.Pieces.{list_pieces};
ghost use Rattle.c_match.specs.Owned.{arms_owned, block_owned, body_owned, count, count_arms, count_block, count_list, form_owned, list_owned, own_code, owned_by};
ghost use Rattle.c_match.specs.Owners.{arm_owned, owner_at, owners_in, Adds, AreOwners};

use crate::pieces::{count_code, count_funcs};
use c_lower_exprs::{Numbers, ProgramTables, Scope, Sort, frame_slots, lower_value, successor};
use c_lower_stmts::lower_stmts;
use c_syntax::{CFunc, CStmt};
use std::alloc::Global;
use std::slice;
use vlt_base::{Items, Memory, VarId};
use vlt_core::{Arm, Block, Expr, Form, Func, Program, Stmt};

/// The owners of a lowering's pieces.
#[derive(Drop)]
pub struct Owners {
    /// None for a piece outside all statements.
    pub owners: Items<Option<u64>>,
    /// How many statements there are.
    pub statements: u64,
}

/// Adds an owner so many times.
fn push(owners: &mut Items<Option<u64>>, times: usize, owner: Option<u64>) -> Result<(), Memory>
    ensures { OnOk result (owners.new ≡ owners.old ++ replicate times owner) }
{
    for done in 0..times {
        owners.push(owner)?;
    }
    Ok(())
}

/// Adds an owner for each piece of its code.
fn push_code(
    alloc: Global,
    code: &[CStmt],
    owner: Option<u64>,
    owners: &mut Items<Option<u64>>,
) -> Result<(), Memory>
    ensures { OnOk result (owners.new ≡ owners.old
        ++ owners_in (owned_by owner (list_pieces (stmts_of code.now)))) }
{
    let times = count_code(alloc, code)?;
    push(owners, times, owner)
}

/// Adds the statement n for the code of its condition.
fn push_condition(
    alloc: Global,
    scope: &Scope<'_>,
    condition: &Expr,
    n: u64,
    t: Numbers,
    owners: &mut Items<Option<u64>>,
) -> Result<(), Memory>
    requires { IsScope scope.now }
    ensures { OnOk result (owners.new ≡ owners.old ++ owners_in (own_code n
        (expr_code (program_in scope.now) (func_in scope.now) (numbers_of t)
        (view.expr_of condition.now)).stmts)) }
{
    let mut code = Items::new(alloc);
    lower_value(alloc, scope, &mut code, t, condition)?;
    push_code(alloc, code.as_slice(), Some(n), owners)
}

/// Adds the statement n, which has no block, for its code.
fn push_flat(
    alloc: Global,
    scope: &Scope<'_>,
    stmt: &Stmt,
    n: u64,
    t: Numbers,
    owners: &mut Items<Option<u64>>,
) -> Result<(), Memory>
    requires { IsScope scope.now }
    ensures { OnOk result (owners.new ≡ owners.old ++ owners_in (own_code n
        (form_code (program_in scope.now) (func_in scope.now) (numbers_of t)
        (view.stmt_of stmt.now).1).stmts)) }
{
    let mut code = Items::new(alloc);
    lower_stmts(alloc, scope, slice::from_ref(stmt), &mut code, t)?;
    push_code(alloc, code.as_slice(), Some(n), owners)
}

/// Adds the switch n for the payloads of a case that variables take.
fn push_copies(
    alloc: Global,
    scope: &Scope<'_>,
    case: u8,
    vars: &[VarId],
    v: VarId,
    n: u64,
    owners: &mut Items<Option<u64>>,
) -> Result<(), Memory>
    requires { IsScope scope.now }
    ensures { OnOk result (owners.new ≡ owners.old ++ owners_in (own_code n
        (arm_copies (program_in scope.now) (func_in scope.now) v.0
        (case_positions (program_in scope.now) (variant_type (func_in scope.now) v.0) case)
        (view.vars_of vars.now)))) }
{
    let positions = scope.case_positions(alloc, scope.variant_type(v), case)?;
    let payloads = positions.len();
    push(owners, payloads.min(vars.len()), Some(n))
}

/// An arm of the switch n on v, whose first statement has the number `first`.
#[cycle(owning)]
fn add_arm(
    alloc: Global,
    scope: &Scope<'_>,
    arm: &Arm,
    n: u64,
    first: u64,
    v: VarId,
    t: Numbers,
    owners: &mut Items<Option<u64>>,
) -> Result<u64, Memory>
    requires { IsScope scope.now }
    ensures { IfOk result (Adds (arm_owned (program_in scope.now) (func_in scope.now)
        (numbers_of t) n first v.0 (view.arm_of arm.now).0 (view.arm_of arm.now).1
        (view.arm_of arm.now).2) (first + count_block (view.arm_of arm.now).2)
        owners.old owners.new) }
{
    push(owners, 1, Some(n))?;
    push_copies(alloc, scope, arm.case, arm.vars.as_slice(), v, n, owners)?;
    let inside = t.past(Sort::Number)?;
    let next = add_block(alloc, scope, &arm.body, first, inside, owners)?;
    push(owners, 1, Some(n))?;
    Ok(next)
}

/// The arms of the switch n on v, of which the first statement has the number `first`.
#[cycle(owning)]
fn add_arms(
    alloc: Global,
    scope: &Scope<'_>,
    arms: &[Arm],
    n: u64,
    first: u64,
    v: VarId,
    t: Numbers,
    owners: &mut Items<Option<u64>>,
) -> Result<u64, Memory>
    requires { IsScope scope.now }
    ensures { IfOk result (Adds (arms_owned (program_in scope.now) (func_in scope.now)
        (numbers_of t) n first v.0 (view.arms_of arms.now))
        (first + count_arms (view.arms_of arms.now)) owners.old owners.new) }
{
    let mut next = first;
    for arm in arms {
        next = add_arm(alloc, scope, arm, n, next, v, t, owners)?;
    }
    Ok(next)
}

/// The statement n, with those in its blocks.
#[cycle(owning)]
fn add_stmt(
    alloc: Global,
    scope: &Scope<'_>,
    stmt: &Stmt,
    n: u64,
    t: Numbers,
    owners: &mut Items<Option<u64>>,
) -> Result<u64, Memory>
    requires { IsScope scope.now }
    ensures { IfOk result (Adds (form_owned (program_in scope.now) (func_in scope.now)
        (numbers_of t) n (view.stmt_of stmt.now).1) (n + count (view.stmt_of stmt.now).1)
        owners.old owners.new) }
{
    let first = successor(n)?;
    match &stmt.form {
        Form::If {
            cond,
            then_block,
            else_block,
        } => {
            push_condition(alloc, scope, cond, n, t, owners)?;
            push(owners, 1, Some(n))?;
            let second = add_block(alloc, scope, then_block, first, t, owners)?;
            push(owners, 2, Some(n))?;
            let next = add_block(alloc, scope, else_block, second, t, owners)?;
            push(owners, 1, Some(n))?;
            Ok(next)
        }
        Form::While { cond, body } => {
            push(owners, 1, Some(n))?;
            push_condition(alloc, scope, cond, n, t, owners)?;
            push(owners, 3, Some(n))?;
            let next = add_block(alloc, scope, body, first, t, owners)?;
            push(owners, 1, Some(n))?;
            Ok(next)
        }
        Form::Switch { v, arms, .. } => {
            push(owners, 1, Some(n))?;
            add_arms(alloc, scope, arms.as_slice(), n, first, *v, t, owners)
        }
        Form::Focus { body, .. } => {
            push(owners, 4, Some(n))?;
            let object = t.past(Sort::Reference)?;
            let inside = object.past(Sort::Reference)?;
            let next = add_block(alloc, scope, body, first, inside, owners)?;
            push(owners, 1, Some(n))?;
            Ok(next)
        }
        Form::Scope { body } => add_block(alloc, scope, body, first, t, owners),
        _ => {
            push_flat(alloc, scope, stmt, n, t, owners)?;
            Ok(first)
        }
    }
}

/// A block whose first statement has the number n.
#[cycle(owning)]
fn add_block(
    alloc: Global,
    scope: &Scope<'_>,
    block: &Block,
    n: u64,
    t: Numbers,
    owners: &mut Items<Option<u64>>,
) -> Result<u64, Memory>
    requires { IsScope scope.now }
    ensures { IfOk result (Adds (block_owned (program_in scope.now) (func_in scope.now)
        (numbers_of t) n (view.block_of block.now)) (n + count_block (view.block_of block.now))
        owners.old owners.new) }
{
    add_stmts(alloc, scope, block.stmts.as_slice(), n, t, owners)
}

/// Statements of which the first has the number n. What comes out is the number of the one after them.
#[cycle(owning)]
fn add_stmts(
    alloc: Global,
    scope: &Scope<'_>,
    stmts: &[Stmt],
    n: u64,
    t: Numbers,
    owners: &mut Items<Option<u64>>,
) -> Result<u64, Memory>
    requires { IsScope scope.now }
    ensures { IfOk result (Adds (list_owned (program_in scope.now) (func_in scope.now)
        (numbers_of t) n (view.stmts_of stmts.now)) (n + count_list (view.stmts_of stmts.now))
        owners.old owners.new) }
{
    let mut next = n;
    for stmt in stmts {
        next = add_stmt(alloc, scope, stmt, next, t, owners)?;
    }
    Ok(next)
}

/// The statements of a function, of which the first has the number n.
fn add_list(
    alloc: Global,
    program: &Program,
    tables: &ProgramTables,
    func: &Func,
    n: u64,
    owners: &mut Items<Option<u64>>,
) -> Result<u64, Memory>
    requires { AreTables (view.program_of program.now) tables.now }
    ensures { IfOk result (Adds (list_owned (view.program_of program.now) (view.func_of func.now)
        (first_temps (view.program_of program.now) (view.func_of func.now)) n
        (view.func_of func.now).body) (n + count_list (view.func_of func.now).body)
        owners.old owners.new) }
{
    let frame = frame_slots(alloc, program, &tables.variants, func)?;
    let scope = Scope {
        program,
        func,
        tables,
        frame: &frame,
    };
    add_stmts(alloc, &scope, func.body.as_slice(), n, frame.temps, owners)
}

/// The body of a function, with what it declares.
fn add_body(
    alloc: Global,
    program: &Program,
    tables: &ProgramTables,
    func: &Func,
    n: u64,
    owners: &mut Items<Option<u64>>,
) -> Result<u64, Memory>
    requires { AreTables (view.program_of program.now) tables.now }
    ensures { IfOk result (Adds (body_owned (view.program_of program.now) n (view.func_of func.now))
        (n + count_list (view.func_of func.now).body) owners.old owners.new) }
{
    push(owners, 1, None)?;
    let next = add_list(alloc, program, tables, func, n, owners)?;
    push(owners, 1, None)?;
    Ok(next)
}

/// A function. Statements of an external, of which no text has one, are counted alone.
fn add_func(
    alloc: Global,
    program: &Program,
    tables: &ProgramTables,
    func: &Func,
    n: u64,
    owners: &mut Items<Option<u64>>,
) -> Result<u64, Memory>
    requires { AreTables (view.program_of program.now) tables.now }
    ensures { IfOk result (Adds (if (view.func_of func.now).external then []
        else body_owned (view.program_of program.now) n (view.func_of func.now))
        (n + count_list (view.func_of func.now).body) owners.old owners.new) }
{
    if func.external {
        let mut none = Items::new(alloc);
        return add_list(alloc, program, tables, func, n, &mut none);
    }
    add_body(alloc, program, tables, func, n, owners)
}

/// The owners of all pieces of a lowering, in which these functions stand for externals.
pub fn owners_of(
    alloc: Global,
    program: &Program,
    tables: &ProgramTables,
    glue: &[CFunc],
) -> Result<Owners, Memory>
    requires tables { AreTables (view.program_of program.now) tables.now }
    requires glue { map func_of glue.now ≡ (lowered (view.program_of program.now)).glue }
    ensures { IfOk result (AreOwners (view.program_of program.now)) }
{
    let mut owners = Items::new(alloc);
    push(&mut owners, 1, None)?;
    let externals = count_funcs(alloc, glue)?;
    push(&mut owners, externals, None)?;
    let mut next = 0;
    for func in program.fns.as_slice() {
        next = add_func(alloc, program, tables, func, next, &mut owners)?;
    }
    Ok(Owners {
        owners,
        statements: next,
    })
}

impl Owners {
    /// The number of the statement that owns the piece at a place; the number of all statements outside them, and after the
    /// last piece.
    pub fn number(&self, at: usize) -> u64
        ensures { result
            ≡ unwrap_or (owner_at (slice_get self.now.owners at)) self.now.statements }
    {
        match self.owners.get(at) {
            Some(Some(n)) => *n,
            _ => self.statements,
        }
    }
}
