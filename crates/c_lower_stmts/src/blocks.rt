//! Parts of statements with blocks: what comes before and after the code of a block.

ghost use Rattle.std.specs.Prelude.{◌≡◌, ◌++◌, [], ◌∷◌, map, IfOk, OnOk};
ghost use Rattle.vlt_core.specs.View as view;
ghost use Rattle.c_syntax.specs.C as c;
ghost use Rattle.c_syntax.specs.View.{stmt_of, stmts_made};
ghost use Rattle.c_syntax.specs.declared.program.CPrim.TheVariants.{Own};
ghost use Rattle.c_lower.specs.Guards.{equal, whole};
ghost use Rattle.c_lower.specs.Expressions.{atom_expr};
ghost use Rattle.c_lower.specs.Statements.{arm_copies, case_positions, runtime_call, stmt_code, variant_type};
ghost use Rattle.c_lower_exprs.specs.Tables.{numbers_of, slot_view};
ghost use Rattle.c_lower_exprs.specs.Scopes.{IsScope, func_in, program_in};
ghost use Rattle.c_lower_exprs.specs.Coded.{atom_of};
ghost use Rattle.c_lower_calls.specs.Written.{Writes};
ghost use Rattle.c_lower_stmts.specs.Payloads.{payloads_copied, slot_at};
ghost use Rattle.c_lower_stmts.specs.Blocks.{case_code, choice_code, turn_code, BeginsFocus, IsFocusAt};

use c_lower_calls::{call_one, call_two, value_one};
use c_lower_exprs::{Atom, Numbers, Scope, Slot, Sort, Value, lower_value, set_atom, with_number};
use c_syntax::{CPrim, CStmt, CVar};
use std::alloc::Global;
use vlt_base::{Items, Memory, VarId};
use vlt_core::{Arm, Expr};
use vlt_ops::Op;

/// The statements of a block, and the numbers after its temps.
#[derive(Drop)]
pub struct Body {
    pub stmts: Items<CStmt>,
    pub most: Numbers,
}

/// `if ( a != 0 ) { .. } else { .. }`
pub fn push_choice(
    alloc: Global,
    out: &mut Items<CStmt>,
    condition: Value,
    yes: Body,
    no: Body,
) -> Result<Numbers, Memory>
    ensures { IfOk result (λ u. Writes (choice_code (atom_of condition.atom)
        (numbers_of condition.next) (stmt_code (map stmt_of yes.stmts) (numbers_of yes.most))
        (stmt_code (map stmt_of no.stmts) (numbers_of no.most)))
        (map stmt_of out.old) (map stmt_of out.new) (numbers_of u)) }
{
    let test = with_number(alloc, Op::NotEqual, condition.atom, 0)?;
    out.push(CStmt::IfElse(test.into_inner(), yes.stmts, no.stmts))?;
    Ok(condition.next.most(yes.most.most(no.most)))
}

/// `if ( a == 0 ) { break ; }`
fn push_exit(alloc: Global, out: &mut Items<CStmt>, condition: Atom) -> Result<(), Memory>
    ensures { OnOk result (map stmt_of out.new ≡ map stmt_of out.old
        ++ c.when (equal (atom_expr (atom_of condition)) (whole 0)) (c.next c.break c.done) ∷ []) }
{
    let mut body = Items::new(alloc);
    body.push(CStmt::Break)?;
    let test = with_number(alloc, Op::Equal, condition, 0)?;
    out.push(CStmt::If(test.into_inner(), body))?;
    Ok(())
}

/// The beginning of a loop's turn: its condition, and the way out where that doesn't hold.
pub fn begin_turn(
    alloc: Global,
    scope: &Scope<'_>,
    t: Numbers,
    condition: &Expr,
) -> Result<Body, Memory>
    requires { IsScope scope.now }
    ensures { IfOk result (λ x. Writes (turn_code (program_in scope.now) (func_in scope.now)
        (numbers_of t) (view.expr_of condition.now)) [] (map stmt_of x.stmts) (numbers_of x.most)) }
{
    let mut stmts = Items::new(alloc);
    let value = lower_value(alloc, scope, &mut stmts, t, condition)?;
    push_exit(alloc, &mut stmts, value.atom)?;
    Ok(Body {
        stmts,
        most: value.next,
    })
}

/// `while ( 1 ) { .. }`
pub fn push_loop(
    out: &mut Items<CStmt>,
    body: Items<CStmt>,
    most: Numbers,
) -> Result<Numbers, Memory>
    ensures { IfOk result (λ u. Writes
        (stmt_code (c.loop (stmts_made (map stmt_of body)) ∷ []) (numbers_of most))
        (map stmt_of out.old) (map stmt_of out.new) (numbers_of u)) }
{
    out.push(CStmt::While(body))?;
    Ok(most)
}

/// `if ( n0 == 1 ) { .. }`: a block for one case.
pub fn push_case(
    alloc: Global,
    out: &mut Items<CStmt>,
    variable: CVar,
    case: u8,
    body: Items<CStmt>,
) -> Result<(), Memory>
    ensures { OnOk result (map stmt_of out.new
        ≡ map stmt_of out.old ++ case_code variable case (map stmt_of body) ∷ []) }
{
    let test = with_number(alloc, Op::Equal, Atom::Var(variable), i64::from(case))?;
    out.push(CStmt::If(test.into_inner(), body))?;
    Ok(())
}

/// The slot at a position.
fn slot_at(slots: &[Slot], position: u64) -> CVar
    ensures { result ≡ slot_at (map slot_view slots.now) position }
{
    match usize::try_from(position) {
        Ok(at) => match slots.get(at) {
            Some(slot) => slot.var,
            None => CVar {
                reference: true,
                number: 0,
            },
        },
        Err(_) => CVar {
            reference: true,
            number: 0,
        },
    }
}

/// Sets variables to the payloads at these positions, one by one.
fn copy_each(
    scope: &Scope<'_>,
    out: &mut Items<CStmt>,
    v: VarId,
    positions: &[u64],
    vars: &[VarId],
) -> Result<(), Memory>
    requires { IsScope scope.now }
    ensures { OnOk result (map stmt_of out.new ≡ map stmt_of out.old
        ++ payloads_copied (program_in scope.now) (func_in scope.now) v.0 positions.now
        (view.vars_of vars.now)) }
{
    let mut rest = vars;
    for &position in positions {
        match rest.split_first() {
            Some((&w, more)) => {
                let payload = slot_at(scope.slots(v), position);
                set_atom(out, scope.slot(w), Atom::Var(payload))?;
                rest = more;
            }
            None => return Ok(()),
        }
    }
    Ok(())
}

/// Sets variables to the payloads at these positions.
fn copy_payloads(
    scope: &Scope<'_>,
    out: &mut Items<CStmt>,
    v: VarId,
    positions: &[u64],
    vars: &[VarId],
) -> Result<(), Memory>
    requires { IsScope scope.now }
    ensures { OnOk result (map stmt_of out.new ≡ map stmt_of out.old
        ++ arm_copies (program_in scope.now) (func_in scope.now) v.0 positions.now
        (view.vars_of vars.now)) }
{
    copy_each(scope, out, v, positions, vars)
}

/// The beginning of an arm: its variables take the payloads.
pub fn begin_arm(
    alloc: Global,
    scope: &Scope<'_>,
    arm: &Arm,
    v: VarId,
) -> Result<Items<CStmt>, Memory>
    requires { IsScope scope.now }
    ensures { IfOk result (λ body. map stmt_of body
        ≡ arm_copies (program_in scope.now) (func_in scope.now) v.0
        (case_positions (program_in scope.now) (variant_type (func_in scope.now) v.0)
        (view.arm_of arm.now).0) (view.arm_of arm.now).1) }
{
    let positions = scope.case_positions(alloc, scope.variant_type(v), arm.case)?;
    let mut body = Items::new(alloc);
    copy_payloads(
        scope,
        &mut body,
        v,
        positions.as_slice(),
        arm.vars.as_slice(),
    )?;
    Ok(body)
}

/// The end of an arm, whose body takes these temps.
pub fn end_arm(
    alloc: Global,
    out: &mut Items<CStmt>,
    case: CVar,
    number: u8,
    body: Items<CStmt>,
    most: Numbers,
) -> Result<Numbers, Memory>
    ensures { IfOk result (λ u. Writes
        (stmt_code (case_code case number (map stmt_of body) ∷ []) (numbers_of most))
        (map stmt_of out.old) (map stmt_of out.new) (numbers_of u)) }
{
    push_case(alloc, out, case, number, body)?;
    Ok(most)
}

/// The temps of a focus: the object, what had adopted it, and where the temps of its block begin.
#[derive(Clone, Copy)]
pub struct Focus {
    pub object: CVar,
    pub adopter: CVar,
    pub inside: Numbers,
}

/// The temps of a focus.
fn focus_at(t: Numbers) -> Result<Focus, Memory>
    ensures { IfOk result (IsFocusAt (numbers_of t)) }
{
    let object = t.temp(Sort::Reference)?;
    let adopter = object.next.temp(Sort::Reference)?;
    Ok(Focus {
        object: object.variable,
        adopter: adopter.variable,
        inside: adopter.next,
    })
}

/// The beginning of a focus: an object leaves its adopter and goes under a key.
pub fn begin_focus(
    alloc: Global,
    scope: &Scope<'_>,
    out: &mut Items<CStmt>,
    t: Numbers,
    y: VarId,
    z: VarId,
) -> Result<Focus, Memory>
    requires { IsScope scope.now }
    ensures { IfOk result (BeginsFocus (program_in scope.now) (func_in scope.now) (numbers_of t)
        y.0 z.0 (map stmt_of out.old) (map stmt_of out.new)) }
{
    let focus = focus_at(t)?;
    let object = Atom::Var(focus.object);
    set_atom(out, focus.object, Atom::Var(scope.slot(y)))?;
    value_one(alloc, out, focus.adopter, CPrim::Parent, object)?;
    call_one(alloc, out, CPrim::Disown, object)?;
    set_atom(out, scope.slot(z), object)?;
    Ok(focus)
}

/// The end of a focus: its adopter has the object again.
pub fn end_focus(
    alloc: Global,
    out: &mut Items<CStmt>,
    focus: Focus,
    most: Numbers,
) -> Result<Numbers, Memory>
    ensures { IfOk result (λ u. Writes (stmt_code (runtime_call Own
        (c.variable focus.object ∷ c.variable focus.adopter ∷ []) ∷ []) (numbers_of most))
        (map stmt_of out.old) (map stmt_of out.new) (numbers_of u)) }
{
    call_two(
        alloc,
        out,
        CPrim::Own,
        Atom::Var(focus.object),
        Atom::Var(focus.adopter),
    )?;
    Ok(most)
}
