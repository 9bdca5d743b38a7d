//! What operands break.

ghost use Rattle.std.specs.Prelude.{◌≡◌, map, Some, None};
ghost use Rattle.vlt_base.specs.States.{has_state};
ghost use Rattle.vlt_core.specs.View.{program_of, func_of, expr_of, operand_of};
ghost use Rattle.vlt_core.specs.Types as types;
ghost use Rattle.vlt_core.specs.KindedHeads as heads;
ghost use Rattle.vlt_core.specs.KindedOperands as s;
ghost use Rattle.cert_kinds_types.specs.Least.{least};
ghost use Rattle.cert_kinds_exprs.specs.Scopes.{ids_of};
ghost use Rattle.cert_kinds_exprs.specs.Seen.{seen_of, seen_some, keys_seen};
ghost use Rattle.cert_kinds_exprs.specs.Wanted.{wanted_types};
ghost use Rattle.cert_kinds_exprs.specs.Packed as z;

use crate::exprs::{expr_broken, misfit, type_of_expr, var_type};
use crate::scopes::{Ids, use_broken};
use crate::seen::{Keys, Seen, is_owning, same_object, same_ty};
use crate::wanted::Wanted;
use cert_kinds_types::{declared_states_broken, lesser, unless};
use vlt_base::{Items, StateSet, TypeId, VarId};
use vlt_core::{Expr, Func, Operand, Program, rules};
use vlt_kinds_queries::lies_within;

/// Whether a target of the first type takes an owning value of the second.
fn fits_owning(wanted: Seen, given: Seen) -> bool
    ensures { result ≡ s.fits_owning (seen_of wanted.entry) (seen_of given.entry) }
{
    match (wanted, given) {
        (Seen::Owning(b, u, others), Seen::Owning(a, t, args)) => {
            same_object(t, args, u, others) && lies_within(a, b)
        }
        _ => same_ty(wanted, given),
    }
}

/// Whether the type is known and owns.
pub fn is_owning_some(ty: Option<Seen>) -> bool
    ensures { result ≡ s.is_owning_some (seen_some ty.entry) }
{
    match ty {
        None => false,
        Some(ty) => is_owning(ty),
    }
}

fn move_broken(wanted: Option<Seen>, given: Option<Seen>) -> Option<u8>
    ensures { result ≡ least (s.move_broken (seen_some wanted.entry) (seen_some given.entry)) }
{
    match given {
        None => None,
        Some(t) => match wanted {
            None => unless(is_owning(t), rules::WRONG_TYPE),
            Some(w) => unless(is_owning(t) && fits_owning(w, t), rules::WRONG_TYPE),
        },
    }
}

fn packed_fits(wanted: Option<Seen>, states: StateSet, t: TypeId, args: Keys) -> Option<u8>
    ensures { result ≡ least (z.packed_fits (seen_some wanted.entry) (has_state states) t.0
        (keys_seen args.entry)) }
{
    match wanted {
        None => None,
        Some(w) => unless(
            fits_owning(w, Seen::Owning(states, t, args)) && is_owning(w),
            rules::WRONG_TYPE,
        ),
    }
}

#[tactic(auto, using(cert_kinds_types::proofs::Smallest::joined))]
fn pack_broken(
    p: &Program,
    wanted: Option<Seen>,
    given: Option<Seen>,
    states: StateSet,
) -> Option<u8>
    ensures { result ≡ least (s.pack_broken (program_of p.now) (seen_some wanted.entry)
        (seen_some given.entry) (has_state states)) }
{
    match given {
        None => None,
        Some(Seen::Tracked(_, t, args)) => lesser(
            declared_states_broken(p, t, states),
            packed_fits(wanted, states, t, args),
        ),
        Some(_) => Some(rules::WRONG_TYPE),
    }
}

fn pure_fits(p: &Program, f: &Func, wanted: Option<Seen>, e: &Expr) -> Option<u8>
    ensures { result ≡ least (z.pure_fits (program_of p.now) (func_of f.now)
        (seen_some wanted.entry) (expr_of e.now)) }
{
    if is_owning_some(wanted) {
        Some(rules::WRONG_TYPE)
    } else {
        misfit(wanted, type_of_expr(p, f, e))
    }
}

#[tactic(auto, using(cert_kinds_types::proofs::Smallest::joined))]
fn packed_broken(
    p: &Program,
    f: &Func,
    ids: &Ids,
    wanted: Option<Seen>,
    x: VarId,
    states: StateSet,
) -> Option<u8>
    ensures { result ≡ least (z.packed_broken (program_of p.now) (func_of f.now)
        (ids_of ids.now) (seen_some wanted.entry) x.0 (has_state states)) }
{
    lesser(
        use_broken(f, ids, x),
        pack_broken(p, wanted, var_type(f, x), states),
    )
}

#[tactic(auto, using(cert_kinds_types::proofs::Smallest::joined))]
fn pure_broken(p: &Program, f: &Func, ids: &Ids, wanted: Option<Seen>, e: &Expr) -> Option<u8>
    ensures { result ≡ least (z.pure_broken (program_of p.now) (func_of f.now)
        (ids_of ids.now) (seen_some wanted.entry) (expr_of e.now)) }
{
    lesser(expr_broken(p, f, ids, e), pure_fits(p, f, wanted, e))
}

#[tactic(auto, using(cert_kinds_types::proofs::Smallest::joined))]
fn moved_broken(f: &Func, ids: &Ids, wanted: Option<Seen>, v: VarId) -> Option<u8>
    ensures { result ≡ least (z.moved_broken (func_of f.now) (ids_of ids.now)
        (seen_some wanted.entry) v.0) }
{
    lesser(use_broken(f, ids, v), move_broken(wanted, var_type(f, v)))
}

/// What an operand for a place of this type breaks, where the type is known.
pub fn operand_broken(
    p: &Program,
    f: &Func,
    ids: &Ids,
    wanted: Option<Seen>,
    o: &Operand,
) -> Option<u8>
    ensures { result ≡ least (s.operand_broken (program_of p.now) (func_of f.now)
        (ids_of ids.now) (seen_some wanted.entry) (operand_of o.now)) }
{
    match o {
        Operand::Pure(e) => pure_broken(p, f, ids, wanted, e),
        Operand::Move(v) => moved_broken(f, ids, wanted, *v),
        Operand::Pack(x, states) => packed_broken(p, f, ids, wanted, *x, *states),
    }
}

/// What operands for places of these types break.
pub fn operands_broken(
    p: &Program,
    f: &Func,
    ids: &Ids,
    wanted: Wanted,
    args: &[Operand],
) -> Option<u8>
    ensures { result ≡ least (s.operands_broken (program_of p.now) (func_of f.now)
        (ids_of ids.now) (wanted_types wanted.entry) (map operand_of args.now)) }
{
    let mut found = None;
    for i in 0..args.len() {
        found = lesser(found, operand_broken(p, f, ids, wanted.get(i), &args[i]));
    }
    found
}
