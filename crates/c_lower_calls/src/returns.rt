//! What a function gives.

ghost use Rattle.std.specs.Prelude.{◌≡◌, ◌++◌, [], ◌∷◌, map, if◌then◌else◌, Some, OnOk, IfOk};
ghost use Rattle.std.specs.Option.{option_map};
ghost use Rattle.vlt_core.specs.View as view;
ghost use Rattle.c_syntax.specs.C as c;
ghost use Rattle.c_syntax.specs.View.{stmt_of};
ghost use Rattle.c_syntax.specs.declared.program.CPrim.TheVariants.{PutN, PutP};
ghost use Rattle.c_lower.specs.Expressions.{atom_arg, atom_expr};
ghost use Rattle.c_lower.specs.Statements.{count_arg, is_reference_atom, is_variant, rest_puts, return_code, return_stmts, runtime_call};
ghost use Rattle.c_lower_exprs.specs.Tables.{numbers_of};
ghost use Rattle.c_lower_exprs.specs.Scopes.{IsScope, func_in, program_in};
ghost use Rattle.c_lower_exprs.specs.Coded.{atom_of};
ghost use Rattle.c_lower_calls.specs.Written.{Writes};
ghost use Rattle.c_lower_calls.specs.Values.{is_of_kind, kind_puts};

use crate::objects::count_atom;
use crate::runtime::call_two;
use c_lower_exprs::{Atom, Numbers, Scope, lower_operand};
use c_syntax::{CPrim, CStmt};
use std::alloc::Global;
use vlt_base::{Items, Memory};
use vlt_core::{Operand, Ty};

/// Whether an atom is of references.
fn is_reference(atom: Atom) -> bool
    ensures { result ≡ is_reference_atom (atom_of atom) }
{
    match atom {
        Atom::Number(_) => false,
        Atom::Var(variable) => variable.reference,
        Atom::Null => true,
    }
}

/// Whether an atom is of the kind.
fn is_of_kind(references: bool, atom: Atom) -> bool
    ensures { result ≡ is_of_kind references (atom_of atom) }
{
    if references {
        is_reference(atom)
    } else {
        !is_reference(atom)
    }
}

/// An atom is handed over under a number.
fn put_atom(
    alloc: Global,
    out: &mut Items<CStmt>,
    references: bool,
    number: u64,
    atom: Atom,
) -> Result<(), Memory>
    ensures { OnOk result (map stmt_of out.new ≡ map stmt_of out.old
        ++ runtime_call (if references then PutP else PutN)
        (count_arg number ∷ atom_arg (atom_of atom) ∷ []) ∷ []) }
{
    let primitive = if references { CPrim::PutP } else { CPrim::PutN };
    let number = count_atom(number)?;
    call_two(alloc, out, primitive, number, atom)
}

/// Atoms of one kind are handed over by the runtime, numbered from 0.
fn put_kind(
    alloc: Global,
    out: &mut Items<CStmt>,
    references: bool,
    atoms: &[Atom],
) -> Result<(), Memory>
    ensures { OnOk result (map stmt_of out.new
        ≡ map stmt_of out.old ++ kind_puts references 0 (map atom_of atoms.now)) }
{
    let mut number = 0;
    for &atom in atoms {
        if is_of_kind(references, atom) {
            put_atom(alloc, out, references, number, atom)?;
            number += 1;
        }
    }
    Ok(())
}

/// Whether a value of the type is a variant.
pub fn is_variant(ty: &Ty) -> bool
    ensures { result ≡ is_variant (Some (view.ty_of ty.now)) }
{
    matches!(ty, Ty::Var(..) | Ty::OwnVar(..))
}

/// Whether a result is a variant.
pub fn gives_variant(ty: &Option<Ty>) -> bool
    ensures { result ≡ is_variant (option_map view.ty_of ty.now) }
{
    match ty {
        Some(ty) => is_variant(ty),
        None => false,
    }
}

/// A variant's atoms but the first are handed over by the runtime.
fn put_rest(alloc: Global, out: &mut Items<CStmt>, rest: &[Atom]) -> Result<(), Memory>
    ensures { OnOk result (map stmt_of out.new ≡ map stmt_of out.old
        ++ rest_puts (map atom_of rest.now)) }
{
    put_kind(alloc, out, false, rest)?;
    put_kind(alloc, out, true, rest)
}

/// A result goes to the caller.
pub fn return_atoms(
    alloc: Global,
    out: &mut Items<CStmt>,
    ty: &Option<Ty>,
    atoms: &[Atom],
) -> Result<(), Memory>
    ensures { OnOk result (map stmt_of out.new ≡ map stmt_of out.old
        ++ return_stmts (option_map view.ty_of ty.now) (map atom_of atoms.now)) }
{
    match atoms.split_first() {
        Some((&first, rest)) => {
            if gives_variant(ty) {
                put_rest(alloc, out, rest)?;
            }
            return_atom(out, first)
        }
        None => {
            if gives_variant(ty) {
                put_rest(alloc, out, &[])?;
            }
            return_atom(out, Atom::Null)
        }
    }
}

/// `return e ;`
fn return_atom(out: &mut Items<CStmt>, atom: Atom) -> Result<(), Memory>
    ensures { OnOk result (map stmt_of out.new
        ≡ map stmt_of out.old ++ c.return (Some (atom_expr (atom_of atom))) ∷ []) }
{
    out.push(CStmt::Return(Some(atom.expr())))?;
    Ok(())
}

/// `return ..;`
pub fn lower_return(
    alloc: Global,
    scope: &Scope<'_>,
    out: &mut Items<CStmt>,
    t: Numbers,
    value: &Option<Operand>,
) -> Result<Numbers, Memory>
    requires { IsScope scope.now }
    ensures { IfOk result (λ u. Writes (return_code (program_in scope.now) (func_in scope.now)
        (numbers_of t) (option_map view.operand_of value.now))
        (map stmt_of out.old) (map stmt_of out.new) (numbers_of u)) }
{
    match value {
        None => {
            out.push(CStmt::Return(None))?;
            Ok(t)
        }
        Some(operand) => {
            let given = lower_operand(alloc, scope, out, t, operand)?;
            return_atoms(alloc, out, &scope.func.result, given.atoms.as_slice())?;
            Ok(given.next)
        }
    }
}
