//! The rows of a function: its own, and those of its body.

ghost use Rattle.std.specs.Prelude.{◌≡◌, map, IfOk};
ghost use Rattle.vlt_core.specs.View.{program_of, func_of};
ghost use Rattle.vlt_core.specs.Kinded.{function_rows};
ghost use Rattle.vlt_core.specs.KindedBodies as s;
ghost use Rattle.vlt_kinds_queries.specs.Marks.{AreMarks};
ghost use Rattle.cert_kinds_types.specs.Least.{least};
ghost use Rattle.cert_kinds_blocks.specs.Scoped.{HasMarks, program_in, func_in};
ghost use Rattle.cert_kinds_tallies.specs.Tallies.{tally_of, tallied};
ghost use Rattle.cert_kinds.specs.Whole as z;

use crate::starts::first_ids;
use crate::walking::walk_stmts;
use cert_kinds_blocks::{Around, Scope, list_ends};
use cert_kinds_heads::head_broken;
use cert_kinds_tallies::Tally;
use cert_kinds_types::{lesser, unless};
use std::alloc::{AllocError, Global};
use vlt_core::{Func, Program, rules};

/// What a function's own row breaks by the end of its body.
fn end_broken(scope: &Scope<'_>) -> Option<u8>
    ensures { result ≡ least (s.end_broken (program_in scope.now) (func_in scope.now)) }
{
    if scope.func.external {
        None
    } else {
        unless(list_ends(scope.func.body.as_slice()), rules::NO_END)
    }
}

/// The rows of a function's body.
fn tally_body(alloc: Global, scope: &Scope<'_>, tally: Tally) -> Result<Tally, AllocError>
    requires { HasMarks scope.now }
    ensures { IfOk result (λ x. tally_of x ≡ tallied (tally_of tally)
        (s.body_rows (program_in scope.now) (func_in scope.now))) }
{
    if scope.func.external {
        return Ok(tally);
    }
    let mut ids = first_ids(alloc, scope)?;
    let around = Around {
        jumps: false,
        returns: true,
    };
    walk_stmts(
        alloc,
        scope,
        around,
        &mut ids,
        tally,
        scope.func.body.as_slice(),
    )
}

/// The rows of the function g.
#[tactic(auto, using(cert_kinds_types::proofs::Smallest::joined))]
fn tally_function(
    alloc: Global,
    scope: &Scope<'_>,
    g: usize,
    tally: Tally,
) -> Result<Tally, AllocError>
    requires { HasMarks scope.now }
    ensures { IfOk result (λ x. tally_of x ≡ tallied (tally_of tally)
        (function_rows (program_in scope.now) (g, func_in scope.now))) }
{
    let head = head_broken(scope.program, g, scope.func);
    let tally = tally.with_row(lesser(head, end_broken(scope)));
    tally_body(alloc, scope, tally)
}

/// The rows of functions, which are numbered from 0.
pub fn tally_functions(
    alloc: Global,
    p: &Program,
    marks: &[bool],
    fns: &[Func],
    tally: Tally,
) -> Result<Tally, AllocError>
    requires { AreMarks (program_of p.now) marks.now }
    ensures { IfOk result (λ x. tally_of x ≡ tallied (tally_of tally)
        (z.functions_rows (program_of p.now) (map func_of fns.now))) }
{
    let mut all = tally;
    for g in 0..fns.len() {
        let scope = Scope {
            program: p,
            marks,
            func: &fns[g],
        };
        all = tally_function(alloc, &scope, g, all)?;
    }
    Ok(all)
}
