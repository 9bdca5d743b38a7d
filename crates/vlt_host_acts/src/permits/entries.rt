//! Entry functions, and the entries of their clauses.

ghost use Rattle.std.specs.Prelude.{◌≡◌, ◌&&◌, ◌==◌, not, map};
ghost use Rattle.std.specs.List.{list_all, list_any};
ghost use Rattle.vlt_core.specs.View.{program_of, func_of, ty_of, var_of, entry_of};
ghost use Rattle.vlt_core.specs.KindedHeads.{parameters_of};
ghost use Rattle.vlt_core.specs.Lookups as lookups;
ghost use Rattle.vlt_meaning.specs.Externals.{is_given};
ghost use Rattle.vlt_host_meaning.specs.EntryFunctions.{is_host_type, gives_new_object, is_host_result, is_entry_function};

use vlt_base::{FnId, KeyId};
use vlt_core::{Entry, Func, Mode, Program, Ty, VarDecl};

/// The parameters, the first of the variables.
#[tactic(auto, using(crate::proofs::OfPermits::Params::first_taken))]
pub fn parameters(f: &Func) -> &[VarDecl]
    ensures { map (λ d. d.ty) (map var_of result.now) ≡ parameters_of (func_of f.now) }
{
    let vars = f.vars.as_slice();
    &vars[..vars.len().min(f.params as usize)]
}

#[tactic(auto, using(crate::proofs::OfPermits::Params::bare))]
fn is_host_type(ty: &Ty) -> bool
    ensures { result ≡ is_host_type (ty_of ty.now) }
{
    match ty {
        Ty::Int | Ty::Bool => true,
        Ty::Key(_, _, args) => args.len() == 0,
        Ty::Own(_, _, _) | Ty::Guard(_, _, _) => false,
        Ty::Var(_, _) | Ty::OwnVar(_, _) => false,
    }
}

fn are_host_types(vars: &[VarDecl]) -> bool
    ensures { result ≡ list_all is_host_type (map (λ d. d.ty) (map var_of vars.now)) }
{
    for d in vars {
        if !is_host_type(&d.ty) {
            return false;
        }
    }
    true
}

/// Whether the entry is of a `new` key.
fn is_new(e: Entry) -> bool
    ensures { result ≡ lookups.is_new (entry_of e) }
{
    matches!(e.mode, Mode::New)
}

fn is_new_for(e: Entry, k: KeyId) -> bool
    ensures { result ≡ (lookups.is_new (entry_of e) && (entry_of e).key == k.0) }
{
    is_new(e) && e.key.0 == k.0
}

fn lists_new(clause: &[Entry], k: KeyId) -> bool
    ensures { result ≡ list_any (λ e. lookups.is_new e && e.key == k.0)
        (map entry_of clause.now) }
{
    for e in clause {
        if is_new_for(*e, k) {
            return true;
        }
    }
    false
}

fn gives_new_object(f: &Func, ty: &Ty) -> bool
    ensures { result ≡ gives_new_object (func_of f.now) (ty_of ty.now) }
{
    match ty {
        Ty::Key(k, _, _) => lists_new(f.clause.as_slice(), *k),
        Ty::Int | Ty::Bool => true,
        Ty::Own(_, _, _) | Ty::Guard(_, _, _) => true,
        Ty::Var(_, _) | Ty::OwnVar(_, _) => true,
    }
}

fn is_host_result(f: &Func) -> bool
    ensures { result ≡ is_host_result (func_of f.now) (func_of f.now).result }
{
    match &f.result {
        None => true,
        Some(ty) => is_host_type(ty) && gives_new_object(f, ty),
    }
}

/// Whether the entry is of a key that is held before a call.
pub fn is_before(e: Entry) -> bool
    ensures { result ≡ lookups.is_held_before (entry_of e) }
{
    match e.mode {
        Mode::Kept | Mode::Taken | Mode::Bound(_) => true,
        Mode::Given | Mode::New => false,
    }
}

fn is_given(e: Entry) -> bool
    ensures { result ≡ is_given (entry_of e) }
{
    matches!(e.mode, Mode::Given)
}

fn gives_nothing(clause: &[Entry]) -> bool
    ensures { result ≡ list_all (λ e. not (is_given e)) (map entry_of clause.now) }
{
    for e in clause {
        if is_given(*e) {
            return false;
        }
    }
    true
}

/// Whether a host may call the function of this number, whatever it holds.
pub fn is_entry_function(p: &Program, i: FnId, f: &Func) -> bool
    ensures { result ≡ is_entry_function (program_of p.now) i.0 (func_of f.now) }
{
    !f.external
        && i.0 != p.main.0
        && are_host_types(parameters(f))
        && is_host_result(f)
        && gives_nothing(f.clause.as_slice())
}
