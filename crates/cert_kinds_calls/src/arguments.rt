//! What the arguments of a call break, against the callee's parameters under the caller's keys.

ghost use Rattle.std.specs.Prelude.{◌≡◌, ◌==◌, ◌&&◌, map, length, Some};
ghost use Rattle.vlt_base.specs.States.{has_state};
ghost use Rattle.vlt_core.specs.View.{program_of, func_of, ty_of, keys_of, var_of, expr_of, operand_of};
ghost use Rattle.vlt_core.specs.KindedHeads.{parameters_of};
ghost use Rattle.vlt_core.specs.KindedCalls as s;
ghost use Rattle.cert_kinds_types.specs.Least.{least};
ghost use Rattle.cert_kinds_exprs.specs.Scopes.{ids_of};
ghost use Rattle.cert_kinds_exprs.specs.Seen.{seen_of, seen_some, keys_seen};
ghost use Rattle.cert_kinds_calls.specs.Called as z;

use crate::fitting::is_type_below;
use cert_kinds_exprs::{Ids, Keys, Seen, below, field_type, operand_broken, same_keys, var_type};
use cert_kinds_heads::parameters;
use cert_kinds_types::lesser;
use vlt_base::{KeyId, StateSet, TypeId};
use vlt_core::{Expr, Func, Operand, Program, Ty, VarDecl, rules};
use vlt_kinds_queries::lies_within;

/// The type of a variable or of a field that is handed over.
fn expr_given<'a>(p: &'a Program, f: &'a Func, e: &Expr) -> Option<Seen<'a>>
    ensures { seen_some result ≡ z.expr_given (program_of p.now) (func_of f.now) (expr_of e.now) }
{
    match e {
        Expr::Var(v) => var_type(f, *v),
        Expr::Field(x, i) => field_type(p, f, *x, *i),
        _ => None,
    }
}

/// A reference's object as an owning value in these states.
fn packed_type(states: StateSet, ty: Option<Seen<'_>>) -> Option<Seen<'_>>
    ensures { seen_some result ≡ z.packed_type (has_state states) (seen_some ty.entry) }
{
    match ty {
        Some(Seen::Tracked(_, t, args)) => Some(Seen::Owning(states, t, args)),
        _ => None,
    }
}

/// The type of what an argument hands over, where it is known.
#[tactic(auto, using(crate::proofs::Operands::pure_given))]
fn argument_type<'a>(p: &'a Program, f: &'a Func, o: &Operand) -> Option<Seen<'a>>
    ensures { seen_some result ≡ s.argument_type (program_of p.now) (func_of f.now)
        (operand_of o.now) }
{
    match o {
        Operand::Pure(e) => expr_given(p, f, e),
        Operand::Move(v) => var_type(f, *v),
        Operand::Pack(x, states) => packed_type(*states, var_type(f, *x)),
    }
}

#[tactic(auto, using(crate::proofs::Operands::as_many_seen))]
fn same_count(t: TypeId, a: Keys, u: TypeId, b: Keys) -> bool
    ensures { result
        ≡ (t.0 == u.0 && (length (keys_seen a.entry) == length (keys_seen b.entry))) }
{
    t.0 == u.0 && a.keys.len() == b.keys.len()
}

/// Whether two types are the same but for their keys.
pub fn same_but_keys(wanted: Seen, given: Seen) -> bool
    ensures { result ≡ s.same_but_keys (seen_of wanted.entry) (seen_of given.entry) }
{
    match (wanted, given) {
        (Seen::Tracked(_, t, a), Seen::Tracked(_, u, b)) => same_count(t, a, u, b),
        (Seen::Guarded(_, t, a), Seen::Guarded(_, u, b)) => same_count(t, a, u, b),
        (Seen::Variant(t, a), Seen::Variant(u, b)) => same_count(t, a, u, b),
        (Seen::OwningVariant(t, a), Seen::OwningVariant(u, b)) => same_count(t, a, u, b),
        (Seen::Owning(within, t, a), Seen::Owning(states, u, b)) => {
            same_count(t, a, u, b) && lies_within(states, within)
        }
        _ => false,
    }
}

/// Whether two types of one form have the same keys.
fn have_same_keys(wanted: Seen, given: Seen) -> bool
    ensures { result ≡ z.have_same_keys (seen_of wanted.entry) (seen_of given.entry) }
{
    match (wanted, given) {
        (Seen::Tracked(k, _, a), Seen::Tracked(j, _, b)) => k.0 == j.0 && same_keys(a, b),
        (Seen::Guarded(k, _, a), Seen::Guarded(j, _, b)) => k.0 == j.0 && same_keys(a, b),
        (Seen::Variant(_, a), Seen::Variant(_, b)) => same_keys(a, b),
        (Seen::OwningVariant(_, a), Seen::OwningVariant(_, b)) => same_keys(a, b),
        (Seen::Owning(_, _, a), Seen::Owning(_, _, b)) => same_keys(a, b),
        _ => true,
    }
}

#[tactic(auto, using(crate::proofs::Operands::other_keys))]
fn has_other_keys(wanted: Seen, given: Seen) -> bool
    ensures { result ≡ z.has_other_keys (seen_of wanted.entry) (seen_of given.entry) }
{
    same_but_keys(wanted, given) && !have_same_keys(wanted, given)
}

/// Whether the argument gives another key than the one that is listed.
fn gives_other_keys(wanted: Option<Seen>, given: Option<Seen>) -> bool
    ensures { result ≡ s.gives_other_keys (seen_some wanted.entry) (seen_some given.entry) }
{
    match (wanted, given) {
        (Some(w), Some(t)) => has_other_keys(w, t),
        _ => false,
    }
}

#[tactic(auto, using(cert_kinds_types::proofs::Smallest::before_others))]
fn argument_broken(
    p: &Program,
    f: &Func,
    ids: &Ids,
    wanted: Option<Seen>,
    o: &Operand,
) -> Option<u8>
    ensures { result ≡ least (s.argument_broken_by (program_of p.now) (func_of f.now)
        (ids_of ids.now) (seen_some wanted.entry) (operand_of o.now)) }
{
    if gives_other_keys(wanted, argument_type(p, f, o)) {
        lesser(
            Some(rules::TWO_CALLER_KEYS),
            operand_broken(p, f, ids, None, o),
        )
    } else {
        operand_broken(p, f, ids, wanted, o)
    }
}

/// A callee's type with the caller's keys, where each of its keys has one.
#[tactic(auto, using(crate::proofs::Keys::as_many_keys))]
pub fn caller_type<'a>(keys: &'a [KeyId], ty: &'a Ty) -> Option<Seen<'a>>
    ensures { seen_some result ≡ s.caller_type (keys_of keys.now) (ty_of ty.now) }
{
    if is_type_below(ty, keys.len()) {
        Some(below(keys, ty))
    } else {
        None
    }
}

fn parameter_at<'a>(vars: &'a [VarDecl], keys: &'a [KeyId], i: usize) -> Option<Seen<'a>>
    ensures { seen_some result ≡ z.wanted_at (map (s.caller_type (keys_of keys.now))
        (map (λ d. d.ty) (map var_of vars.now))) i }
{
    match vars.get(i) {
        None => None,
        Some(d) => caller_type(keys, &d.ty),
    }
}

/// The type of a parameter with the caller's keys.
fn parameter_wanted<'a>(g: &'a Func, keys: &'a [KeyId], i: usize) -> Option<Seen<'a>>
    ensures { seen_some result ≡ z.wanted_at
        (map (s.caller_type (keys_of keys.now)) (parameters_of (func_of g.now))) i }
{
    parameter_at(parameters(g), keys, i)
}

/// What the arguments of a call break.
pub fn arguments_broken(
    p: &Program,
    f: &Func,
    ids: &Ids,
    g: &Func,
    keys: &[KeyId],
    args: &[Operand],
) -> Option<u8>
    ensures { result ≡ least (s.arguments_broken (program_of p.now) (func_of f.now)
        (ids_of ids.now)
        (map (s.caller_type (keys_of keys.now)) (parameters_of (func_of g.now)))
        (map operand_of args.now)) }
{
    let mut found = None;
    for i in 0..args.len() {
        found = lesser(
            found,
            argument_broken(p, f, ids, parameter_wanted(g, keys, i), &args[i]),
        );
    }
    found
}
