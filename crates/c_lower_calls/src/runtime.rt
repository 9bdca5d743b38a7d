//! Calls of the runtime.

ghost use Rattle.std.specs.Prelude.{◌≡◌, ◌++◌, [], ◌∷◌, map, IfOk, OnOk};
ghost use Rattle.c_syntax.specs.View.{arg_of, stmt_of};
ghost use Rattle.c_lower.specs.Expressions.{atom_arg};
ghost use Rattle.c_lower.specs.Statements.{runtime_call, runtime_value};
ghost use Rattle.c_lower_exprs.specs.Coded.{atom_of};

use c_lower_exprs::Atom;
use c_syntax::{CArg, CCall, CPrim, CStmt, CVar};
use std::alloc::Global;
use vlt_base::{Items, Memory};

/// Arguments of a call.
fn two(alloc: Global, a: Atom, b: Atom) -> Result<Items<CArg>, Memory>
    ensures { IfOk result (λ xs. map arg_of xs
        ≡ atom_arg (atom_of a) ∷ atom_arg (atom_of b) ∷ []) }
{
    let mut args = Items::new(alloc);
    args.push(a.arg())?;
    args.push(b.arg())?;
    Ok(args)
}

/// Calls a primitive without arguments.
pub fn call_none(alloc: Global, out: &mut Items<CStmt>, primitive: CPrim) -> Result<(), Memory>
    ensures { OnOk result (map stmt_of out.new
        ≡ map stmt_of out.old ++ runtime_call primitive [] ∷ []) }
{
    out.push(CStmt::Call(CCall::Primitive(primitive, Items::new(alloc))))?;
    Ok(())
}

/// Calls a primitive with one argument.
pub fn call_one(
    alloc: Global,
    out: &mut Items<CStmt>,
    primitive: CPrim,
    a: Atom,
) -> Result<(), Memory>
    ensures { OnOk result (map stmt_of out.new
        ≡ map stmt_of out.old ++ runtime_call primitive (atom_arg (atom_of a) ∷ []) ∷ []) }
{
    let mut args = Items::new(alloc);
    args.push(a.arg())?;
    out.push(CStmt::Call(CCall::Primitive(primitive, args)))?;
    Ok(())
}

/// Calls a primitive with two arguments.
pub fn call_two(
    alloc: Global,
    out: &mut Items<CStmt>,
    primitive: CPrim,
    a: Atom,
    b: Atom,
) -> Result<(), Memory>
    ensures { OnOk result (map stmt_of out.new ≡ map stmt_of out.old
        ++ runtime_call primitive (atom_arg (atom_of a) ∷ atom_arg (atom_of b) ∷ []) ∷ []) }
{
    let args = two(alloc, a, b)?;
    out.push(CStmt::Call(CCall::Primitive(primitive, args)))?;
    Ok(())
}

/// Sets a variable to what a primitive gives.
pub fn value_none(
    alloc: Global,
    out: &mut Items<CStmt>,
    variable: CVar,
    primitive: CPrim,
) -> Result<(), Memory>
    ensures { OnOk result (map stmt_of out.new
        ≡ map stmt_of out.old ++ runtime_value variable primitive [] ∷ []) }
{
    out.push(CStmt::SetCall(variable, CCall::Primitive(primitive, Items::new(alloc))))?;
    Ok(())
}

/// Sets a variable to what a primitive gives for one argument.
pub fn value_one(
    alloc: Global,
    out: &mut Items<CStmt>,
    variable: CVar,
    primitive: CPrim,
    a: Atom,
) -> Result<(), Memory>
    ensures { OnOk result (map stmt_of out.new ≡ map stmt_of out.old
        ++ runtime_value variable primitive (atom_arg (atom_of a) ∷ []) ∷ []) }
{
    let mut args = Items::new(alloc);
    args.push(a.arg())?;
    out.push(CStmt::SetCall(variable, CCall::Primitive(primitive, args)))?;
    Ok(())
}

/// Sets a variable to what a primitive gives for two arguments.
pub fn value_two(
    alloc: Global,
    out: &mut Items<CStmt>,
    variable: CVar,
    primitive: CPrim,
    a: Atom,
    b: Atom,
) -> Result<(), Memory>
    ensures { OnOk result (map stmt_of out.new ≡ map stmt_of out.old
        ++ runtime_value variable primitive (atom_arg (atom_of a) ∷ atom_arg (atom_of b) ∷ []) ∷ []) }
{
    let args = two(alloc, a, b)?;
    out.push(CStmt::SetCall(variable, CCall::Primitive(primitive, args)))?;
    Ok(())
}
