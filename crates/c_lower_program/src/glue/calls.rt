//! What tells the host of a call.

ghost use Rattle.std.specs.Prelude.{◌≡◌, ◌++◌, [], ◌∷◌, map, OnOk};
ghost use Rattle.c_syntax.specs.C as c;
ghost use Rattle.c_syntax.specs.View.{stmt_of};
ghost use Rattle.c_syntax.specs.declared.program.CPrim.TheVariants.{Call};
ghost use Rattle.c_lower.specs.Glue.{argument_call, params_of, question};
ghost use Rattle.c_lower.specs.Statements.{runtime_call};
ghost use Rattle.c_lower_exprs.specs.Scopes.{IsScope, func_in, program_in};
ghost use Rattle.c_lower_program.specs.Glue.Parts.{arguments};

use c_lower_calls::{call_none, call_one};
use c_lower_exprs::{Atom, Scope};
use c_syntax::{CArg, CCall, CPrim, CStmt, CVar};
use std::alloc::Global;
use vlt_base::{Items, Memory, VarId};

/// The call itself, with the external's name.
fn call_named(alloc: Global, out: &mut Items<CStmt>, name: &[u8]) -> Result<(), Memory>
    ensures { OnOk result (map stmt_of out.new
        ≡ map stmt_of out.old ++ runtime_call Call (c.text name.now ∷ []) ∷ []) }
{
    let text = Items::from_slice(alloc, name)?;
    let mut args = Items::new(alloc);
    args.push(CArg::Text(text))?;
    out.push(CStmt::Call(CCall::Primitive(CPrim::Call, args)))?;
    Ok(())
}

/// An argument.
fn push_argument(alloc: Global, out: &mut Items<CStmt>, slot: CVar) -> Result<(), Memory>
    ensures { OnOk result (map stmt_of out.new
        ≡ map stmt_of out.old ++ argument_call slot ∷ []) }
{
    if slot.reference {
        call_one(alloc, out, CPrim::ArgP, Atom::Var(slot))
    } else {
        call_one(alloc, out, CPrim::ArgN, Atom::Var(slot))
    }
}

/// An argument for each parameter.
fn push_arguments(alloc: Global, scope: &Scope<'_>, out: &mut Items<CStmt>) -> Result<(), Memory>
    requires { IsScope scope.now }
    ensures { OnOk result (map stmt_of out.new ≡ map stmt_of out.old ++ arguments
        (program_in scope.now) (func_in scope.now) (params_of (func_in scope.now))) }
{
    for v in 0..scope.func.params {
        push_argument(alloc, out, scope.slot(VarId(v)))?;
    }
    Ok(())
}

/// Tells the host of the call, and asks it.
pub fn question(alloc: Global, scope: &Scope<'_>, out: &mut Items<CStmt>) -> Result<(), Memory>
    requires { IsScope scope.now }
    ensures { OnOk result (map stmt_of out.new ≡ map stmt_of out.old
        ++ question (program_in scope.now) (func_in scope.now)) }
{
    call_named(alloc, out, scope.func.name.as_slice())?;
    push_arguments(alloc, scope, out)?;
    call_none(alloc, out, CPrim::Ask)
}
