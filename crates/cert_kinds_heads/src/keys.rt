//! Which keys stand in a head.

ghost use Rattle.std.specs.Prelude.{◌≡◌, ◌==◌, ◌||◌, ◌&&◌, map, drop, nat_lt, length};
ghost use Rattle.std.specs.List.{list_any};
ghost use Rattle.vlt_core.specs.View.{func_of, ty_of, keys_of, var_of, entry_of};
ghost use Rattle.vlt_core.specs.KindedHeads as s;
ghost use Rattle.vlt_core.specs.Lookups as lookups;
ghost use Rattle.vlt_core.specs.Types as types;

use vlt_base::KeyId;
use vlt_core::{Entry, Func, Mode, Ty, VarDecl};

/// The parameters, the first of the variables.
#[tactic(auto, using(crate::proofs::Taken::all_taken, crate::proofs::Taken::some_taken))]
pub fn parameters(f: &Func) -> &[VarDecl]
    ensures { map (λ d. d.ty) (map var_of result.now) ≡ s.parameters_of (func_of f.now) }
{
    let vars = f.vars.as_slice();
    if (f.params as usize) < vars.len() {
        &vars[..f.params as usize]
    } else {
        vars
    }
}

/// The variables after the parameters.
#[tactic(auto, using(crate::proofs::Taken::all_dropped, crate::proofs::Taken::some_dropped))]
pub fn locals(f: &Func) -> &[VarDecl]
    ensures { map var_of result.now ≡ drop (func_of f.now).params (func_of f.now).vars }
{
    let vars = f.vars.as_slice();
    if (f.params as usize) < vars.len() {
        &vars[f.params as usize..]
    } else {
        &[]
    }
}

/// Whether the function has a key of this number.
pub fn is_key(f: &Func, k: usize) -> bool
    ensures { result ≡ nat_lt k (length (func_of f.now).keys) }
{
    k < f.keys.len()
}

/// Whether the list has the key.
pub fn has_key(keys: &[KeyId], k: usize) -> bool
    ensures { result ≡ s.has (keys_of keys.now) k }
{
    for j in keys {
        if j.0 as usize == k {
            return true;
        }
    }
    false
}

/// Whether a type has the key.
pub fn type_has(ty: &Ty, k: usize) -> bool
    ensures { result ≡ s.has (types.keys_of_ty (ty_of ty.now)) k }
{
    match ty {
        Ty::Int | Ty::Bool => false,
        Ty::Key(j, _, args) | Ty::Guard(j, _, args) => {
            j.0 as usize == k || has_key(args.as_slice(), k)
        }
        Ty::Own(_, _, args) => has_key(args.as_slice(), k),
        Ty::Var(_, args) | Ty::OwnVar(_, args) => has_key(args.as_slice(), k),
    }
}

/// Whether the type of one of the variables has the key.
pub fn any_has(vars: &[VarDecl], k: usize) -> bool
    ensures { result ≡ list_any (λ ty. s.has (types.keys_of_ty ty) k)
        (map (λ d. d.ty) (map var_of vars.now)) }
{
    for d in vars {
        if type_has(&d.ty, k) {
            return true;
        }
    }
    false
}

/// Whether the type of a parameter has the key.
#[tactic(auto, using(crate::proofs::Lists::has_flat))]
pub fn parameters_have(f: &Func, k: usize) -> bool
    ensures { result ≡ s.has (s.keys_of_parameters (func_of f.now)) k }
{
    any_has(parameters(f), k)
}

/// Whether the entry is of a `new` key.
pub fn is_new(e: Entry) -> bool
    ensures { result ≡ lookups.is_new (entry_of e) }
{
    matches!(e.mode, Mode::New)
}

fn is_new_key(e: Entry, k: usize) -> bool
    ensures { result ≡ (lookups.is_new (entry_of e) && (entry_of e).key == k) }
{
    is_new(e) && e.key.0 as usize == k
}

fn lists_new(clause: &[Entry], k: usize) -> bool
    ensures { result ≡ list_any (λ e. lookups.is_new e && e.key == k)
        (map entry_of clause.now) }
{
    for e in clause {
        if is_new_key(*e, k) {
            return true;
        }
    }
    false
}

/// Whether the key is a `new` one of the clause.
#[tactic(auto, using(crate::proofs::Lists::has_new))]
pub fn has_new(f: &Func, k: usize) -> bool
    ensures { result ≡ s.has (s.new_keys (func_of f.now)) k }
{
    lists_new(f.clause.as_slice(), k)
}

fn lists(clause: &[Entry], k: usize) -> bool
    ensures { result ≡ s.has (map (λ e. e.key) (map entry_of clause.now)) k }
{
    for e in clause {
        if e.key.0 as usize == k {
            return true;
        }
    }
    false
}

/// Whether the keys of a clause are apart.
pub fn are_apart(clause: &[Entry]) -> bool
    ensures { result ≡ s.are_apart (map (λ e. e.key) (map entry_of clause.now)) }
{
    match clause {
        [] => true,
        [e, rest @ ..] => !lists(rest, e.key.0 as usize) && are_apart(rest),
    }
}

/// Whether the type of the result has the key.
pub fn result_has(f: &Func, k: usize) -> bool
    ensures { result ≡ s.has (s.keys_of_result (func_of f.now)) k }
{
    match &f.result {
        None => false,
        Some(ty) => type_has(ty, k),
    }
}

/// Whether the head has the key.
#[tactic(auto, using(crate::proofs::Lists::has_either))]
pub fn head_has(f: &Func, k: usize) -> bool
    ensures { result ≡ s.has (s.head_keys (func_of f.now)) k }
{
    (result_has(f, k) || parameters_have(f, k)) || lists(f.clause.as_slice(), k)
}

/// Whether neither a parameter nor a `new` entry gives the key of the head.
pub fn is_left_out(f: &Func, k: usize) -> bool
    ensures { result ≡ s.is_left_out (func_of f.now) k }
{
    head_has(f, k) && !parameters_have(f, k) && !has_new(f, k)
}
