//! What a call breaks, and what it binds.

ghost use Rattle.std.specs.Prelude.{◌≡◌, ◌==◌, ◌∷◌, [], map, length, Some, None, OnOk};
ghost use Rattle.std.specs.Option.{option_map, option_copied};
ghost use Rattle.vlt_core.specs.View.{program_of, func_of, keys_of, operand_of};
ghost use Rattle.vlt_core.specs.KindedHeads.{parameters_of};
ghost use Rattle.vlt_core.specs.KindedCalls as s;
ghost use Rattle.cert_kinds_types.specs.Least.{least};
ghost use Rattle.cert_kinds_exprs.specs.Scopes.{ids_of};
ghost use Rattle.cert_kinds_calls.specs.Called as z;

use crate::arguments::arguments_broken;
use crate::clauses::{caller_keys_broken, clause_keys_broken};
use crate::fitting::keys_fit;
use crate::targets::{bind_given, call_target_broken, target_alone_broken};
use cert_kinds_exprs::{Ids, Wanted, operands_broken};
use cert_kinds_heads::{key_list_broken, parameters};
use cert_kinds_types::{lesser, unless};
use std::alloc::AllocError;
use vlt_base::{KeyId, VarId};
use vlt_core::{Func, Operand, Program, rules};

/// What a call breaks whose callee isn't there.
#[tactic(auto, using(cert_kinds_types::proofs::Smallest::joined, cert_kinds_types::proofs::Smallest::before_others))]
fn stray_call_broken(
    p: &Program,
    f: &Func,
    ids: &Ids,
    target: Option<VarId>,
    keys: &[KeyId],
    args: &[Operand],
) -> Option<u8>
    ensures { result ≡ least (s.call_broken (program_of p.now) (func_of f.now) (ids_of ids.now)
        None (option_map (λ v. v.0) target) (keys_of keys.now) (map operand_of args.now)) }
{
    lesser(
        lesser(
            key_list_broken(f, keys),
            lesser(
                Some(rules::UNKNOWN_NAME),
                operands_broken(p, f, ids, Wanted::Nothing, args),
            ),
        ),
        target_alone_broken(f, ids, target),
    )
}

fn has_count(g: &Func, count: usize) -> bool
    ensures { result ≡ (count == length (parameters_of (func_of g.now))) }
{
    count == parameters(g).len()
}

#[tactic(auto, using(crate::proofs::Operands::as_many))]
fn count_broken(g: &Func, args: &[Operand]) -> Option<u8>
    ensures { result ≡ least (z.count_broken (func_of g.now) (length (map operand_of args.now))) }
{
    unless(has_count(g, args.len()), rules::WRONG_COUNT)
}

fn fitting_broken(g: &Func, keys: &[KeyId]) -> Option<u8>
    ensures { result ≡ least (z.fitting_broken (func_of g.now) (keys_of keys.now)) }
{
    if keys_fit(g, keys) {
        clause_keys_broken(g, keys)
    } else {
        None
    }
}

#[tactic(auto, using(cert_kinds_types::proofs::Smallest::joined))]
fn fit_broken(f: &Func, g: &Func, keys: &[KeyId], args: &[Operand]) -> Option<u8>
    ensures { result ≡ least (z.fit_broken (func_of f.now) (func_of g.now)
        (length (map operand_of args.now)) (keys_of keys.now)) }
{
    lesser(
        lesser(
            lesser(
                key_list_broken(f, keys),
                unless(keys_fit(g, keys), rules::TWO_CALLER_KEYS),
            ),
            count_broken(g, args),
        ),
        fitting_broken(g, keys),
    )
}

#[tactic(auto, using(cert_kinds_types::proofs::Smallest::joined))]
fn known_call_broken(
    p: &Program,
    f: &Func,
    ids: &Ids,
    g: &Func,
    target: Option<VarId>,
    keys: &[KeyId],
    args: &[Operand],
) -> Option<u8>
    ensures { result ≡ least (s.call_broken (program_of p.now) (func_of f.now) (ids_of ids.now)
        (Some (func_of g.now)) (option_map (λ v. v.0) target) (keys_of keys.now)
        (map operand_of args.now)) }
{
    lesser(
        lesser(
            lesser(
                fit_broken(f, g, keys, args),
                arguments_broken(p, f, ids, g, keys, args),
            ),
            caller_keys_broken(f, ids, g, keys),
        ),
        call_target_broken(f, ids, g, keys, target),
    )
}

/// What a call breaks. The callee is none where the program has no function of its number.
pub fn call_broken(
    p: &Program,
    f: &Func,
    ids: &Ids,
    g: Option<&Func>,
    target: Option<VarId>,
    keys: &[KeyId],
    args: &[Operand],
) -> Option<u8>
    ensures { result ≡ least (s.call_broken (program_of p.now) (func_of f.now) (ids_of ids.now)
        (option_map func_of (option_copied g.entry)) (option_map (λ v. v.0) target)
        (keys_of keys.now) (map operand_of args.now)) }
{
    match g {
        None => stray_call_broken(p, f, ids, target, keys, args),
        Some(g) => known_call_broken(p, f, ids, g, target, keys, args),
    }
}

/// The target of a call is bound where it isn't in scope, or with its key where the call gives a
/// fresh object. An error is a refused allocation.
pub fn bind_call_target(
    f: &Func,
    g: Option<&Func>,
    ids: &mut Ids,
    target: Option<VarId>,
) -> Result<(), AllocError>
    ensures { OnOk result (ids_of ids.new ≡ s.with_call_target (func_of f.now)
        (option_map func_of (option_copied g.entry)) (option_map (λ v. v.0) target)
        (ids_of ids.old)) }
{
    match target {
        None => Ok(()),
        Some(v) => match g {
            None => ids.bind_target(f, v),
            Some(g) => bind_given(f, g, ids, v),
        },
    }
}
