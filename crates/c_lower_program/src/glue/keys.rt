//! Objects that go out to the host with a call, and that come back.

ghost use Rattle.std.specs.Prelude.{◌≡◌, ◌++◌, [], ◌∷◌, map, filter, Some, OnOk};
ghost use Rattle.vlt_core.specs.Lookups.{is_owning_var, var_type};
ghost use Rattle.vlt_core.specs.View.{entry_of, func_of};
ghost use Rattle.c_syntax.specs.C as c;
ghost use Rattle.c_syntax.specs.View.{stmt_of};
ghost use Rattle.c_syntax.specs.declared.program.CPrim.TheVariants.{Back, Out};
ghost use Rattle.c_lower.specs.Glue as g;
ghost use Rattle.c_lower.specs.Glue.{first_or_0, go_out, is_tracked_by, params_of, var_arg};
ghost use Rattle.c_lower.specs.Statements.{runtime_call};
ghost use Rattle.c_lower_exprs.specs.Scopes.{IsScope, func_in, program_in};
ghost use Rattle.c_lower_program.specs.Glue.Parts.{keys_moved, moves, owners_out, moved_by};

use c_lower_calls::call_one;
use c_lower_exprs::{Atom, Scope};
use c_syntax::{CPrim, CStmt, CVar};
use std::alloc::Global;
use vlt_base::{Items, KeyId, Memory, VarId};
use vlt_core::{Entry, Func, Mode, Ty};

/// Which way objects go: out to the host, or back.
#[derive(Clone, Copy)]
pub enum Way {
    Out,
    Back,
}

impl Way {
    fn primitive(self) -> CPrim
        ensures { result ≡ moved_by self }
    {
        match self {
            Way::Out => CPrim::Out,
            Way::Back => CPrim::Back,
        }
    }

    /// Whether the object of an entry goes this way.
    fn takes(self, entry: &Entry) -> bool
        ensures { result ≡ moves self (entry_of entry.now).mode }
    {
        match self {
            Way::Out => matches!(entry.mode, Mode::Taken),
            Way::Back => matches!(entry.mode, Mode::Given),
        }
    }
}

/// Whether a variable refers to the key's object.
fn is_tracked_by(func: &Func, v: VarId, key: KeyId) -> bool
    ensures { result ≡ is_tracked_by key.0 (var_type (func_of func.now) v.0) }
{
    match func.var_type(v) {
        Some(Ty::Key(k, _, _)) => k.0 == key.0,
        _ => false,
    }
}

/// The first parameter that refers to the key's object, or variable 0.
fn key_param(func: &Func, key: KeyId) -> VarId
    ensures { result.0 ≡ first_or_0 (filter
        (λ v. is_tracked_by key.0 (var_type (func_of func.now) v))
        (params_of (func_of func.now))) }
{
    for v in 0..func.params {
        if is_tracked_by(func, VarId(v), key) {
            return VarId(v);
        }
    }
    VarId(0)
}

/// The slot of the first parameter that refers to the key's object.
fn key_slot(scope: &Scope<'_>, key: KeyId) -> CVar
    requires { IsScope scope.now }
    ensures { result ≡ g.key_slot (program_in scope.now) (func_in scope.now) key.0 }
{
    scope.slot(key_param(scope.func, key))
}

/// The object of a key goes out or comes back.
pub fn move_key(
    alloc: Global,
    scope: &Scope<'_>,
    out: &mut Items<CStmt>,
    way: Way,
    key: KeyId,
) -> Result<(), Memory>
    requires { IsScope scope.now }
    ensures { OnOk result (map stmt_of out.new ≡ map stmt_of out.old
        ++ runtime_call (moved_by way)
        (var_arg (g.key_slot (program_in scope.now) (func_in scope.now) key.0) ∷ []) ∷ []) }
{
    let slot = key_slot(scope, key);
    call_one(alloc, out, way.primitive(), Atom::Var(slot))
}

/// The objects of the clause's keys go out or come back.
pub fn move_keys(
    alloc: Global,
    scope: &Scope<'_>,
    out: &mut Items<CStmt>,
    way: Way,
) -> Result<(), Memory>
    requires { IsScope scope.now }
    ensures { OnOk result (map stmt_of out.new ≡ map stmt_of out.old ++ keys_moved way
        (program_in scope.now) (func_in scope.now) (func_in scope.now).clause) }
{
    for entry in scope.func.clause.as_slice() {
        if way.takes(entry) {
            move_key(alloc, scope, out, way, entry.key)?;
        }
    }
    Ok(())
}

/// The object that a parameter owns goes out.
fn send_param(
    alloc: Global,
    scope: &Scope<'_>,
    out: &mut Items<CStmt>,
    v: VarId,
) -> Result<(), Memory>
    requires { IsScope scope.now }
    ensures { OnOk result (map stmt_of out.new ≡ map stmt_of out.old
        ++ owners_out (program_in scope.now) (func_in scope.now) (v.0 ∷ [])) }
{
    if scope.func.is_owning_var(v) {
        call_one(alloc, out, CPrim::Out, Atom::Var(scope.slot(v)))
    } else {
        Ok(())
    }
}

/// The objects that parameters own go out.
fn send_owned(alloc: Global, scope: &Scope<'_>, out: &mut Items<CStmt>) -> Result<(), Memory>
    requires { IsScope scope.now }
    ensures { OnOk result (map stmt_of out.new ≡ map stmt_of out.old ++ owners_out
        (program_in scope.now) (func_in scope.now) (params_of (func_in scope.now))) }
{
    for v in 0..scope.func.params {
        send_param(alloc, scope, out, VarId(v))?;
    }
    Ok(())
}

/// Objects go out to the host: those of keys that the clause takes, and those that parameters own.
pub fn go_out(alloc: Global, scope: &Scope<'_>, out: &mut Items<CStmt>) -> Result<(), Memory>
    requires { IsScope scope.now }
    ensures { OnOk result (map stmt_of out.new ≡ map stmt_of out.old
        ++ go_out (program_in scope.now) (func_in scope.now)) }
{
    move_keys(alloc, scope, out, Way::Out)?;
    send_owned(alloc, scope, out)
}
