//! Masks: numbers whose bits are 1 at what the host may answer.

ghost use Rattle.std.specs.Prelude.{◌≡◌, ◌≤◌, ◌^◌, ◌++◌, pos, map, length, OnOk};
ghost use Rattle.std.specs.List.{range_with_len, sum_by};
ghost use Rattle.vlt_base.specs.States.{has_state};
ghost use Rattle.c_syntax.specs.View.{stmt_of};
ghost use Rattle.c_lower.specs.Expressions.{atom_arg};
ghost use Rattle.c_lower.specs.Glue.{mask};
ghost use Rattle.c_lower_exprs.specs.Coded.{atom_of};
ghost use Rattle.c_lower_program.specs.Glue.Picks.{picked, states_below};

use c_lower_calls::call_one;
use c_lower_exprs::Atom;
use c_syntax::{CPrim, CStmt};
use std::alloc::Global;
use vlt_base::{Items, Memory, StateSet};

/// How many states a set has.
fn count(states: StateSet) -> u8
    ensures { result ≡ length (states_below 32 (has_state states)) }
{
    let mut count = 0;
    for state in 0..32 {
        if states.has(state) {
            count += 1;
        }
    }
    count
}

/// The number whose bits are 1 at the states of a set.
fn states_number(states: StateSet) -> i64
    ensures { result ≡ pos (sum_by (λ n. 2 ^ n) (states_below 32 (has_state states))) }
{
    i64::from(states.mask())
}

/// The mask of a set of states.
fn states_mask(states: StateSet) -> Atom
    ensures { atom_arg (atom_of result) ≡ mask (states_below 32 (has_state states)) }
{
    Atom::Number(states_number(states))
}

/// Asks the host in which of the states an object is, where there is more than one.
pub fn push_pick(alloc: Global, out: &mut Items<CStmt>, states: StateSet) -> Result<(), Memory>
    ensures { OnOk result (map stmt_of out.new
        ≡ map stmt_of out.old ++ picked (has_state states)) }
{
    if count(states) < 2 {
        return Ok(());
    }
    call_one(alloc, out, CPrim::Pick, states_mask(states))
}

/// The mask of `false` and `true`.
pub const BOTH_BOOLS: Atom = Atom::Number(3);

/// The number whose bits are 1 below a position, at most 63.
fn ones(count: usize) -> i64
    requires { count ≤ 63 }
    ensures { result ≡ pos (sum_by (λ n. 2 ^ n) (range_with_len 0 count)) }
{
    ((1_u64 << count) - 1) as i64
}

/// The mask of the numbers of so many cases, at most 63.
pub fn cases_mask(count: usize) -> Atom
    requires { count ≤ 63 }
    ensures { atom_arg (atom_of result) ≡ mask (range_with_len 0 count) }
{
    Atom::Number(ones(count))
}
