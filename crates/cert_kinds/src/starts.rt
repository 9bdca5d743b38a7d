//! What is in scope where a body begins: the parameters, and the keys of the head. Lists of ids are read from their end, so
//! the last is put in first.

ghost use Rattle.std.specs.Prelude.{◌≡◌, ◌∷◌, ◌++◌, reverse, IfOk, OnOk};
ghost use Rattle.std.specs.List.{range_with_len};
ghost use Rattle.vlt_core.specs.View.{func_of, ty_of, keys_of, vars_of};
ghost use Rattle.vlt_core.specs.Types.{keys_of_ty};
ghost use Rattle.vlt_core.specs.KindedHeads as heads;
ghost use Rattle.vlt_core.specs.KindedBodies as s;
ghost use Rattle.cert_kinds_exprs.specs.Scopes.{ids_of};
ghost use Rattle.cert_kinds_blocks.specs.Scoped.{program_in, func_in};
ghost use Rattle.cert_kinds.specs.Starts as z;

use cert_kinds_blocks::Scope;
use cert_kinds_exprs::Ids;
use cert_kinds_heads::parameters;
use std::alloc::{AllocError, Global};
use vlt_base::{Items, KeyId, VarId};
use vlt_core::{Entry, Func, Ty, VarDecl};

/// The number of parameters, as far as they are among the variables.
fn parameter_count(f: &Func) -> u32
    ensures { result ≡ z.parameter_count (func_of f.now) }
{
    if (f.params as usize) < f.vars.len() {
        f.params
    } else {
        f.vars.len() as u32
    }
}

/// The first variables, the last of them first.
fn first_vars(alloc: Global, count: u32) -> Result<Items<VarId>, AllocError>
    ensures { IfOk result (λ vars. reverse (vars_of vars) ≡ range_with_len 0 count) }
{
    let mut vars = Items::new(alloc);
    for i in 0..count {
        vars.push(VarId(count - 1 - i))?;
    }
    Ok(vars)
}

/// A key is put before others.
#[tactic(auto, using(cert_kinds_exprs::proofs::Reversed::pushed))]
fn put_key(keys: &mut Items<KeyId>, k: KeyId) -> Result<(), AllocError>
    ensures { OnOk result (z.last_first keys.new ≡ k.0 ∷ z.last_first keys.old) }
{
    keys.push(k)
}

fn put_keys(keys: &mut Items<KeyId>, before: &[KeyId]) -> Result<(), AllocError>
    ensures { OnOk result (z.last_first keys.new ≡ keys_of before.now ++ z.last_first keys.old) }
{
    let count = before.len();
    for i in 0..count {
        put_key(keys, before[count - 1 - i])?;
    }
    Ok(())
}

fn put_type(keys: &mut Items<KeyId>, ty: &Ty) -> Result<(), AllocError>
    ensures { OnOk result (z.last_first keys.new
        ≡ keys_of_ty (ty_of ty.now) ++ z.last_first keys.old) }
{
    match ty {
        Ty::Int | Ty::Bool => Ok(()),
        Ty::Key(k, _, args) | Ty::Guard(k, _, args) => {
            put_keys(keys, args.as_slice())?;
            put_key(keys, *k)
        }
        Ty::Own(_, _, args) => put_keys(keys, args.as_slice()),
        Ty::Var(_, args) | Ty::OwnVar(_, args) => put_keys(keys, args.as_slice()),
    }
}

fn put_types(keys: &mut Items<KeyId>, vars: &[VarDecl]) -> Result<(), AllocError>
    ensures { OnOk result (z.last_first keys.new
        ≡ z.keys_of_vars vars.now ++ z.last_first keys.old) }
{
    let count = vars.len();
    for i in 0..count {
        put_type(keys, &vars[count - 1 - i].ty)?;
    }
    Ok(())
}

fn put_clause(keys: &mut Items<KeyId>, clause: &[Entry]) -> Result<(), AllocError>
    ensures { OnOk result (z.last_first keys.new
        ≡ z.keys_of_clause clause.now ++ z.last_first keys.old) }
{
    let count = clause.len();
    for i in 0..count {
        put_key(keys, clause[count - 1 - i].key)?;
    }
    Ok(())
}

fn put_result(keys: &mut Items<KeyId>, f: &Func) -> Result<(), AllocError>
    ensures { OnOk result (z.last_first keys.new
        ≡ heads.keys_of_result (func_of f.now) ++ z.last_first keys.old) }
{
    match &f.result {
        None => Ok(()),
        Some(ty) => put_type(keys, ty),
    }
}

fn put_parameters(keys: &mut Items<KeyId>, f: &Func) -> Result<(), AllocError>
    ensures { OnOk result (z.last_first keys.new
        ≡ heads.keys_of_parameters (func_of f.now) ++ z.last_first keys.old) }
{
    put_types(keys, parameters(f))
}

/// The keys of the parameters' types.
fn parameter_keys(alloc: Global, f: &Func) -> Result<Items<KeyId>, AllocError>
    ensures { IfOk result (λ keys. z.last_first keys
        ≡ heads.keys_of_parameters (func_of f.now)) }
{
    let mut keys = Items::new(alloc);
    put_parameters(&mut keys, f)?;
    Ok(keys)
}

/// The keys of the head.
fn head_keys(alloc: Global, f: &Func) -> Result<Items<KeyId>, AllocError>
    ensures { IfOk result (λ keys. z.last_first keys
        ≡ heads.head_keys (func_of f.now)) }
{
    let mut keys = Items::new(alloc);
    put_clause(&mut keys, f.clause.as_slice())?;
    put_parameters(&mut keys, f)?;
    put_result(&mut keys, f)?;
    Ok(keys)
}

/// What is in scope where the body begins. An error is a refused allocation.
pub fn first_ids(alloc: Global, scope: &Scope<'_>) -> Result<Ids, AllocError>
    ensures { IfOk result (λ ids. ids_of ids ≡ s.first_ids (program_in scope.now)
        (func_in scope.now)) }
{
    let f = scope.func;
    let count = parameter_count(f);
    Ok(Ids {
        vars: first_vars(alloc, count)?,
        keys: parameter_keys(alloc, f)?,
        vars_ever: first_vars(alloc, count)?,
        keys_ever: head_keys(alloc, f)?,
        bound: Items::new(alloc),
    })
}
