//! What the rows of heads break.

ghost use Rattle.std.specs.Prelude.{◌≡◌, ◌==◌, nat_le, length, map, Some, option_map, if◌then◌else◌};
ghost use Rattle.std.specs.List.{flat_map};
ghost use Rattle.vlt_core.specs.View.{program_of, func_of, ty_of, entry_of};
ghost use Rattle.vlt_core.specs.KindedHeads as s;
ghost use Rattle.vlt_core.specs.declared.rules.TheConstants as rule;
ghost use Rattle.cert_kinds_types.specs.Least.{least};
ghost use Rattle.cert_kinds_heads.specs.Heads as z;

use crate::clauses::{entries_broken, has_few_bounds, result_broken};
use crate::externals::external_broken;
use crate::heads::{keys_broken, type_broken, vars_broken};
use crate::keys::{are_apart, is_new};
use cert_kinds_types::{lesser, unless};
use vlt_base::FnId;
use vlt_core::{Entry, Func, Program, Ty, rules};

fn is_one_new(clause: &[Entry]) -> bool
    ensures { result ≡ z.is_one_new (map entry_of clause.now) }
{
    if clause.len() == 1 {
        is_new(clause[0])
    } else {
        false
    }
}

#[tactic(auto, using(crate::proofs::Entries::one_main, crate::proofs::Entries::none_main))]
fn is_main_by(given: &Option<Ty>, clause: &[Entry]) -> bool
    ensures { result ≡ z.main_by (option_map ty_of given.now) (map entry_of clause.now) }
{
    match given {
        None => clause.len() == 0,
        Some(Ty::Key(_, _, _)) => is_one_new(clause),
        Some(_) => false,
    }
}

/// Whether a head may be that of `main`.
fn is_main_head(f: &Func) -> bool
    ensures { result ≡ s.is_main_head (func_of f.now) }
{
    f.params == 0 && is_main_by(&f.result, f.clause.as_slice())
}

fn given_broken(p: &Program, f: &Func) -> Option<u8>
    ensures { result ≡ least (s.when_some (func_of f.now).result
        (s.type_broken (program_of p.now) (func_of f.now))) }
{
    match &f.result {
        None => None,
        Some(ty) => type_broken(p, f, ty),
    }
}

/// Whether the parameters are among the variables.
fn has_parameters(f: &Func) -> bool
    ensures { result ≡ nat_le (func_of f.now).params (length (func_of f.now).vars) }
{
    f.params as usize <= f.vars.len()
}

fn all_vars_broken(p: &Program, f: &Func) -> Option<u8>
    ensures { result ≡ least (flat_map
        (λ d. s.type_broken (program_of p.now) (func_of f.now) d.ty) (func_of f.now).vars) }
{
    vars_broken(p, f, f.vars.as_slice())
}

fn all_keys_broken(p: &Program, f: &Func) -> Option<u8>
    ensures { result ≡ least (s.listed_broken (program_of p.now) (func_of f.now) 0
        (func_of f.now).keys) }
{
    keys_broken(p, f, f.keys.as_slice())
}

#[tactic(auto, using(cert_kinds_types::proofs::Smallest::joined))]
fn types_broken(p: &Program, f: &Func) -> Option<u8>
    ensures { result ≡ least (z.types_broken (program_of p.now) (func_of f.now)) }
{
    lesser(
        lesser(
            lesser(
                unless(has_parameters(f), rules::UNKNOWN_NAME),
                all_vars_broken(p, f),
            ),
            given_broken(p, f),
        ),
        all_keys_broken(p, f),
    )
}

#[tactic(auto, using(cert_kinds_types::proofs::Smallest::joined))]
fn clause_broken(p: &Program, f: &Func) -> Option<u8>
    ensures { result ≡ least (z.clause_broken (program_of p.now) (func_of f.now)) }
{
    lesser(
        lesser(
            lesser(
                types_broken(p, f),
                unless(are_apart(f.clause.as_slice()), rules::CLAUSE_KEY_AGAIN),
            ),
            entries_broken(p, f, f.clause.as_slice()),
        ),
        result_broken(f),
    )
}

fn outside_broken(p: &Program, f: &Func) -> Option<u8>
    ensures { result ≡ least (z.outside_broken (program_of p.now) (func_of f.now)) }
{
    if f.external {
        external_broken(p, f)
    } else {
        None
    }
}

fn main_broken(p: &Program, g: usize, f: &Func) -> Option<u8>
    ensures { result ≡ least (z.main_broken (program_of p.now) g (func_of f.now)) }
{
    if g == p.main.0 as usize {
        unless(is_main_head(f), rules::MAIN_HEAD)
    } else {
        None
    }
}

/// What a function's own row breaks, the body aside.
#[tactic(auto, using(cert_kinds_types::proofs::Smallest::joined))]
pub fn head_broken(p: &Program, g: usize, f: &Func) -> Option<u8>
    ensures { result ≡ least (s.head_broken (program_of p.now) g (func_of f.now)) }
{
    lesser(
        lesser(
            lesser(clause_broken(p, f), outside_broken(p, f)),
            main_broken(p, g, f),
        ),
        unless(has_few_bounds(f.clause.as_slice()), rules::SECOND_BOUND),
    )
}
