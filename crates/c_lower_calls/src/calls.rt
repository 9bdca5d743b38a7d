//! Calls of functions.

ghost use Rattle.std.specs.Prelude.{◌≡◌, ◌++◌, [], ◌∷◌, map, if◌then◌else◌, Some, OnOk, IfOk};
ghost use Rattle.std.specs.List.{flat_map};
ghost use Rattle.std.specs.Option.{option_map};
ghost use Rattle.vlt_core.specs.Lookups.{var_type};
ghost use Rattle.vlt_core.specs.View as view;
ghost use Rattle.c_syntax.specs.View.{arg_of, call_of, stmt_of};
ghost use Rattle.c_syntax.specs.declared.program.CPrim.TheVariants.{GetN, GetP};
ghost use Rattle.c_lower.specs.Slots.{slot_vars};
ghost use Rattle.c_lower.specs.Expressions.{atom_arg};
ghost use Rattle.c_lower.specs.Statements.{after_first, call_code, call_stmts, count_arg, is_variant, results, runtime_value};
ghost use Rattle.c_lower_exprs.specs.Tables.{numbers_of, slot_view};
ghost use Rattle.c_lower_exprs.specs.Scopes.{IsScope, func_in, program_in};
ghost use Rattle.c_lower_exprs.specs.Coded.{atom_of};
ghost use Rattle.c_lower_calls.specs.Written.{Writes};
ghost use Rattle.c_lower_calls.specs.Values.{is_var_of_kind, kind_gets};

use crate::objects::count_atom;
use crate::returns::is_variant;
use crate::runtime::value_one;
use c_lower_exprs::{Atom, Numbers, Scope, Slot, lower_operands};
use c_syntax::{CArg, CCall, CPrim, CStmt, CVar};
use std::alloc::Global;
use vlt_base::{FnId, Items, Memory, VarId};
use vlt_core::Operand;

/// Adds atoms to the arguments of a call.
fn push_args(args: &mut Items<CArg>, atoms: &[Atom]) -> Result<(), Memory>
    ensures { OnOk result (map arg_of args.new
        ≡ map arg_of args.old ++ map atom_arg (map atom_of atoms.now)) }
{
    for atom in atoms {
        args.push(atom.arg())?;
    }
    Ok(())
}

/// The arguments of a call.
fn call_args(alloc: Global, all: &[Items<Atom>]) -> Result<Items<CArg>, Memory>
    ensures { IfOk result (λ xs. map arg_of xs
        ≡ flat_map (map atom_arg) (map (map atom_of) all.now)) }
{
    let mut args = Items::new(alloc);
    for atoms in all {
        push_args(&mut args, atoms.as_slice())?;
    }
    Ok(args)
}

/// Whether a variable is of the kind.
fn is_var_of_kind(references: bool, variable: CVar) -> bool
    ensures { result ≡ is_var_of_kind references variable }
{
    if references {
        variable.reference
    } else {
        !variable.reference
    }
}

/// A variable gets what was handed over under a number.
fn get_value(
    alloc: Global,
    out: &mut Items<CStmt>,
    references: bool,
    number: u64,
    variable: CVar,
) -> Result<(), Memory>
    ensures { OnOk result (map stmt_of out.new ≡ map stmt_of out.old
        ++ runtime_value variable (if references then GetP else GetN) (count_arg number ∷ []) ∷ []) }
{
    let primitive = if references { CPrim::GetP } else { CPrim::GetN };
    let number = count_atom(number)?;
    value_one(alloc, out, variable, primitive, number)
}

/// Variables of one kind get what was handed over, numbered from 0.
fn get_kind(
    alloc: Global,
    out: &mut Items<CStmt>,
    references: bool,
    slots: &[Slot],
) -> Result<(), Memory>
    ensures { OnOk result (map stmt_of out.new ≡ map stmt_of out.old
        ++ kind_gets references 0 (map (λ x. x.var) (map slot_view slots.now))) }
{
    let mut number = 0;
    for slot in slots {
        if is_var_of_kind(references, slot.var) {
            get_value(alloc, out, references, number, slot.var)?;
            number += 1;
        }
    }
    Ok(())
}

/// Slots get what was handed over: those of numbers, and then those of references.
fn get_rest(alloc: Global, out: &mut Items<CStmt>, slots: &[Slot]) -> Result<(), Memory>
    ensures { OnOk result (map stmt_of out.new ≡ map stmt_of out.old
        ++ results (map (λ x. x.var) (map slot_view slots.now))) }
{
    get_kind(alloc, out, false, slots)?;
    get_kind(alloc, out, true, slots)
}

/// The same, where they are a variant's.
fn get_if(
    alloc: Global,
    out: &mut Items<CStmt>,
    is_variant: bool,
    slots: &[Slot],
) -> Result<(), Memory>
    ensures { OnOk result (map stmt_of out.new ≡ map stmt_of out.old
        ++ (if is_variant then results (map (λ x. x.var) (map slot_view slots.now)) else [])) }
{
    if is_variant {
        get_rest(alloc, out, slots)
    } else {
        Ok(())
    }
}

/// Whether a variable is a variant.
fn is_variant_var(scope: &Scope<'_>, v: VarId) -> bool
    ensures { result ≡ is_variant (var_type (func_in scope.now) v.0) }
{
    match scope.func.var_type(v) {
        Some(ty) => is_variant(ty),
        None => false,
    }
}

/// A variant's slots but the first get what was handed over.
fn get_results(
    alloc: Global,
    scope: &Scope<'_>,
    out: &mut Items<CStmt>,
    v: VarId,
) -> Result<(), Memory>
    requires { IsScope scope.now }
    ensures { OnOk result (map stmt_of out.new ≡ map stmt_of out.old
        ++ (if is_variant (var_type (func_in scope.now) v.0)
        then results (after_first (slot_vars (program_in scope.now) (func_in scope.now) v.0))
        else [])) }
{
    let is_variant = is_variant_var(scope, v);
    get_if(alloc, out, is_variant, scope.rest_slots(v))
}

/// The call, and then a variant's other slots.
fn call_into(
    alloc: Global,
    scope: &Scope<'_>,
    out: &mut Items<CStmt>,
    call: CCall,
    v: VarId,
) -> Result<(), Memory>
    requires { IsScope scope.now }
    ensures { OnOk result (map stmt_of out.new ≡ map stmt_of out.old
        ++ call_stmts (program_in scope.now) (func_in scope.now) (call_of call) (Some v.0)) }
{
    out.push(CStmt::SetCall(scope.slot(v), call))?;
    get_results(alloc, scope, out, v)
}

/// `target = f(..);`
pub fn lower_call(
    alloc: Global,
    scope: &Scope<'_>,
    out: &mut Items<CStmt>,
    t: Numbers,
    f: FnId,
    target: Option<VarId>,
    operands: &[Operand],
) -> Result<Numbers, Memory>
    requires { IsScope scope.now }
    ensures { IfOk result (λ u. Writes (call_code (program_in scope.now) (func_in scope.now)
        (numbers_of t) f.0 (option_map (λ v. v.0) target) (map view.operand_of operands.now))
        (map stmt_of out.old) (map stmt_of out.new) (numbers_of u)) }
{
    let values = lower_operands(alloc, scope, out, t, operands)?;
    let args = call_args(alloc, values.atoms.as_slice())?;
    let call = CCall::Function(scope.name(f), args);
    match target {
        None => out.push(CStmt::Call(call))?,
        Some(v) => call_into(alloc, scope, out, call, v)?,
    }
    Ok(values.next)
}
