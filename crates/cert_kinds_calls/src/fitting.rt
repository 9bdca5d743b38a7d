//! Whether the keys of a call fit those of the callee.

ghost use Rattle.std.specs.Prelude.{◌≡◌, ◌||◌, not, nat_lt, map};
ghost use Rattle.std.specs.List.{list_all, range_with_len};
ghost use Rattle.vlt_core.specs.View.{func_of, ty_of, keys_of, var_of, entry_of};
ghost use Rattle.vlt_core.specs.Lookups.{is_new};
ghost use Rattle.vlt_core.specs.Types.{keys_of_ty};
ghost use Rattle.vlt_core.specs.KindedHeads.{has};
ghost use Rattle.vlt_core.specs.KindedCalls as s;
ghost use Rattle.cert_kinds_calls.specs.Fitting as z;

use cert_kinds_heads::{has_new, is_new, parameters, parameters_have};
use vlt_base::KeyId;
use vlt_core::{Entry, Func, Ty, VarDecl};

/// Whether a parameter's type has the key, or it is a `new` one.
#[tactic(auto, using(cert_kinds_heads::proofs::Lists::has_either))]
fn is_callee_key(g: &Func, k: usize) -> bool
    ensures { result ≡ has (z.callee_keys (func_of g.now)) k }
{
    parameters_have(g, k) || has_new(g, k)
}

/// Whether each number below the count is a key of the callee.
fn are_callee_keys(g: &Func, count: usize) -> bool
    ensures { result ≡ list_all (has (z.callee_keys (func_of g.now))) (range_with_len 0 count) }
{
    for k in 0..count {
        if !is_callee_key(g, k) {
            return false;
        }
    }
    true
}

fn are_below(keys: &[KeyId], count: usize) -> bool
    ensures { result ≡ list_all (λ k. nat_lt k count) (keys_of keys.now) }
{
    for k in keys {
        if k.0 as usize >= count {
            return false;
        }
    }
    true
}

/// Whether the keys of a type are below a number.
pub fn is_type_below(ty: &Ty, count: usize) -> bool
    ensures { result ≡ list_all (λ k. nat_lt k count) (keys_of_ty (ty_of ty.now)) }
{
    match ty {
        Ty::Int | Ty::Bool => true,
        Ty::Key(k, _, args) | Ty::Guard(k, _, args) => {
            (k.0 as usize) < count && are_below(args.as_slice(), count)
        }
        Ty::Own(_, _, args) => are_below(args.as_slice(), count),
        Ty::Var(_, args) | Ty::OwnVar(_, args) => are_below(args.as_slice(), count),
    }
}

fn are_types_below(vars: &[VarDecl], count: usize) -> bool
    ensures { result ≡ list_all (λ ty. list_all (λ k. nat_lt k count) (keys_of_ty ty))
        (map (λ d. d.ty) (map var_of vars.now)) }
{
    for d in vars {
        if !is_type_below(&d.ty, count) {
            return false;
        }
    }
    true
}

fn is_entry_below(e: Entry, count: usize) -> bool
    ensures { result ≡ (not (is_new (entry_of e)) || nat_lt (entry_of e).key count) }
{
    !is_new(e) || (e.key.0 as usize) < count
}

fn are_new_below(clause: &[Entry], count: usize) -> bool
    ensures { result ≡ list_all (λ e. not (is_new e) || nat_lt e.key count)
        (map entry_of clause.now) }
{
    for e in clause {
        if !is_entry_below(*e, count) {
            return false;
        }
    }
    true
}

/// Whether each key of the callee is below the count.
fn has_callee_keys(g: &Func, count: usize) -> bool
    ensures { result ≡ list_all (λ k. nat_lt k count) (z.callee_keys (func_of g.now)) }
{
    are_types_below(parameters(g), count) && are_new_below(g.clause.as_slice(), count)
}

fn is_count_fit(g: &Func, count: usize) -> bool
    ensures { result ≡ z.is_count_fit (func_of g.now) count }
{
    are_callee_keys(g, count) && has_callee_keys(g, count)
}

/// Whether the callee's keys are the numbers from 0 on, and each has a key of the caller.
#[tactic(auto, using(crate::proofs::Keys::as_many_keys))]
pub fn keys_fit(g: &Func, keys: &[KeyId]) -> bool
    ensures { result ≡ s.keys_fit (func_of g.now) (keys_of keys.now) }
{
    is_count_fit(g, keys.len())
}
