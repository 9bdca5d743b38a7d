//! The first fault of one token over the instances of a function.

ghost use Rattle.std.specs.Prelude.{◌≡◌, max, IfOk, IfErr};
ghost use Rattle.vlt_core.specs.View.{program_of, func_of, tok_of};
ghost use Rattle.vlt_rows.specs.Unfit.{UnfitBy};
ghost use Rattle.vlt_faults.specs.Judge.Faulty.{HasUntold};
ghost use Rattle.vlt_all_faults.specs.Tokens.{IsJudgedOf, AreBoundsOf};

use std::alloc::Global;
use vlt_core::{Func, Program, Tok};
use vlt_faults::{InstanceBlame, TokenBounds, blame_of, first_blame, token_bounds_in};
use vlt_rows::{RowError, origins};

/// The first fault of a token over the function's instances, if it has one in some of them: at one spot that of the least
/// origin.
pub fn first_fault(
    alloc: Global,
    p: &Program,
    f: &Func,
    tok: Tok,
) -> Result<Option<InstanceBlame>, RowError>
    ensures first { IfOk result (IsJudgedOf (program_of p.now) (func_of f.now) (tok_of tok)) }
    ensures unfit { IfErr result (UnfitBy (HasUntold (program_of p.now) (func_of f.now))) }
{
    let origins = origins(alloc, p, f)?;
    let mut first = None;
    for origin in origins.as_slice() {
        first = first_blame(first, *origin, blame_of(alloc, p, f, *origin, tok)?);
    }
    Ok(first)
}

fn larger(a: u32, b: u32) -> u32
    ensures { result ≡ max a b }
{
    if a < b { b } else { a }
}

/// Numbers of keys and variables such that a token beyond them has no fault in any instance.
pub fn token_bounds(alloc: Global, p: &Program, f: &Func) -> Result<TokenBounds, RowError>
    ensures bounds { IfOk result (λ c.
        AreBoundsOf (program_of p.now) (func_of f.now) c.keys c.vars) }
    ensures unfit { IfErr result (UnfitBy (HasUntold (program_of p.now) (func_of f.now))) }
{
    let origins = origins(alloc, p, f)?;
    let mut keys = 0;
    let mut vars = 0;
    for origin in origins.as_slice() {
        let bounds = token_bounds_in(alloc, p, f, *origin)?;
        keys = larger(keys, bounds.keys);
        vars = larger(vars, bounds.vars);
    }
    Ok(TokenBounds { keys, vars })
}
