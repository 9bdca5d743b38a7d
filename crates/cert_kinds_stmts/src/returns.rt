//! What returns break.

ghost use Rattle.std.specs.Prelude.{◌≡◌, ◌==◌, ◌&&◌, map, Some, None, option_map};
ghost use Rattle.std.specs.List.{list_any};
ghost use Rattle.vlt_core.specs.View.{program_of, func_of, ty_of, keys_of, entry_of, expr_of, operand_of};
ghost use Rattle.vlt_core.specs.Lookups as lookups;
ghost use Rattle.vlt_core.specs.KindedHeads as heads;
ghost use Rattle.vlt_core.specs.KindedCalls as s;
ghost use Rattle.cert_kinds_types.specs.Least.{least};
ghost use Rattle.cert_kinds_exprs.specs.Scopes.{ids_of};
ghost use Rattle.cert_kinds_stmts.specs.Returned as z;

use cert_kinds_exprs::{Ids, operand_broken, plain, plain_keys, same_object, use_broken};
use cert_kinds_heads::has_new;
use cert_kinds_types::{lesser, unless};
use vlt_base::{Items, KeyId, TypeId, VarId};
use vlt_core::{Entry, Expr, Func, Mode, Operand, Program, Ty, rules};

fn is_given_back(e: Entry) -> bool
    ensures { result ≡ lookups.is_given_back (entry_of e) }
{
    !matches!(e.mode, Mode::Taken | Mode::New)
}

fn is_kept(e: Entry, k: KeyId) -> bool
    ensures { result ≡ (lookups.is_given_back (entry_of e) && (entry_of e).key == k.0) }
{
    is_given_back(e) && e.key.0 == k.0
}

fn lists_kept(clause: &[Entry], k: KeyId) -> bool
    ensures { result ≡ list_any (λ e. lookups.is_given_back e && e.key == k.0)
        (map entry_of clause.now) }
{
    for e in clause {
        if is_kept(*e, k) {
            return true;
        }
    }
    false
}

/// Whether the clause has the key after, a `new` one aside.
#[tactic(auto, using(crate::proofs::Returned::has_kept))]
fn has_kept(f: &Func, k: KeyId) -> bool
    ensures { result ≡ heads.has (s.kept_keys (func_of f.now)) k.0 }
{
    lists_kept(f.clause.as_slice(), k)
}

fn new_result_type(f: &Func, t: TypeId, args: &[KeyId], ty: &Ty) -> Option<u8>
    ensures { result ≡ least (z.new_result_type (func_of f.now) t.0 (keys_of args.now)
        (ty_of ty.now)) }
{
    match ty {
        Ty::Key(k, u, others) => {
            if same_object(t, plain_keys(args), *u, plain_keys(others.as_slice())) {
                unless(!has_kept(f, *k), rules::RETURNED_KEY)
            } else {
                Some(rules::WRONG_TYPE)
            }
        }
        _ => Some(rules::WRONG_TYPE),
    }
}

fn new_var_type(f: &Func, t: TypeId, args: &[KeyId], x: VarId) -> Option<u8>
    ensures { result ≡ least (heads.when_some (lookups.var_type (func_of f.now) x.0)
        (z.new_result_type (func_of f.now) t.0 (keys_of args.now))) }
{
    match f.var_type(x) {
        None => None,
        Some(ty) => new_result_type(f, t, args, ty),
    }
}

#[tactic(auto, using(cert_kinds_types::proofs::Smallest::joined))]
fn new_result_var(f: &Func, ids: &Ids, t: TypeId, args: &[KeyId], x: VarId) -> Option<u8>
    ensures { result ≡ least (z.new_result_var (func_of f.now) (ids_of ids.now) t.0
        (keys_of args.now) x.0) }
{
    lesser(use_broken(f, ids, x), new_var_type(f, t, args, x))
}

fn expr_var(e: &Expr) -> Option<VarId>
    ensures { option_map (λ v. v.0) result ≡ z.expr_var (expr_of e.now) }
{
    match e {
        Expr::Var(v) => Some(*v),
        _ => None,
    }
}

/// The variable that an operand is.
#[tactic(auto, using(crate::proofs::Returned::pure_var))]
fn as_var(o: &Operand) -> Option<VarId>
    ensures { option_map (λ v. v.0) result ≡ z.as_var (operand_of o.now) }
{
    match o {
        Operand::Pure(e) => expr_var(e),
        _ => None,
    }
}

/// What a returned reference for a `new` key breaks.
#[tactic(auto, using(crate::proofs::Returned::new_by_var))]
fn new_result_broken(
    p: &Program,
    f: &Func,
    ids: &Ids,
    t: TypeId,
    args: &[KeyId],
    o: &Operand,
) -> Option<u8>
    ensures { result ≡ least (s.new_result_broken (program_of p.now) (func_of f.now)
        (ids_of ids.now) t.0 (keys_of args.now) (operand_of o.now)) }
{
    match as_var(o) {
        None => lesser(Some(rules::WRONG_TYPE), operand_broken(p, f, ids, None, o)),
        Some(x) => new_result_var(f, ids, t, args, x),
    }
}

fn returned_broken(p: &Program, f: &Func, ids: &Ids, ty: &Ty, o: &Operand) -> Option<u8>
    ensures { result ≡ least (s.returned_broken (program_of p.now) (func_of f.now)
        (ids_of ids.now) (ty_of ty.now) (operand_of o.now)) }
{
    match ty {
        Ty::Key(k, t, args) => {
            if has_new(f, k.0 as usize) {
                new_result_broken(p, f, ids, *t, args.as_slice(), o)
            } else {
                operand_broken(p, f, ids, Some(plain(ty)), o)
            }
        }
        _ => operand_broken(p, f, ids, Some(plain(ty)), o),
    }
}

#[tactic(auto, using(cert_kinds_types::proofs::Smallest::before_others))]
fn value_returned(p: &Program, f: &Func, ids: &Ids, o: &Operand) -> Option<u8>
    ensures { result ≡ least (s.return_broken (program_of p.now) (func_of f.now)
        (ids_of ids.now) (func_of f.now).result (Some (operand_of o.now))) }
{
    match &f.result {
        None => lesser(
            Some(rules::WRONG_RETURN),
            operand_broken(p, f, ids, None, o),
        ),
        Some(ty) => returned_broken(p, f, ids, ty, o),
    }
}

fn nothing_returned(p: &Program, f: &Func, ids: &Ids) -> Option<u8>
    ensures { result ≡ least (s.return_broken (program_of p.now) (func_of f.now)
        (ids_of ids.now) (func_of f.now).result None) }
{
    match &f.result {
        None => None,
        Some(_) => Some(rules::WRONG_RETURN),
    }
}

/// What `return ..;` breaks where a return may stand.
pub fn return_broken(p: &Program, f: &Func, ids: &Ids, value: &Option<Operand>) -> Option<u8>
    ensures { result ≡ least (s.return_broken (program_of p.now) (func_of f.now)
        (ids_of ids.now) (func_of f.now).result (option_map operand_of value.now)) }
{
    match value {
        None => nothing_returned(p, f, ids),
        Some(o) => value_returned(p, f, ids, o),
    }
}
