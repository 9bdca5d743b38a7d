//! The states that the host is asked for after a call.

ghost use Rattle.std.specs.Prelude.{◌≡◌, ◌<◌, ◌++◌, ℕ, map, nat_lt, OnOk};
ghost use Rattle.vlt_core.specs.Lookups.{after_set, states_of_key};
ghost use Rattle.vlt_core.specs.View.{entry_of, func_of, program_of};
ghost use Rattle.c_syntax.specs.View.{stmt_of};
ghost use Rattle.c_lower_exprs.specs.Scopes.{func_in, program_in};
ghost use Rattle.c_lower_program.specs.Glue.Picks.{has_in, picked};
ghost use Rattle.c_lower_program.specs.Glue.Parts.{clause_picks, is_asked};

use crate::glue::masks::push_pick;
use c_lower_exprs::Scope;
use c_syntax::CStmt;
use std::alloc::Global;
use vlt_base::{Items, KeyId, Memory, StateSet};
use vlt_core::{Entry, Func, Mode, Program};

/// The states below 32 of so many, if there are any.
fn first_states(count: usize) -> Option<StateSet>
    ensures { (i : ℕ) → i < 32 → has_in result i ≡ nat_lt i count }
{
    if count == 0 {
        None
    } else if count < 32 {
        Some(StateSet::first(count as u8))
    } else {
        Some(StateSet::first(32))
    }
}

/// The states below 32 of a key's object.
fn key_states(program: &Program, func: &Func, key: KeyId) -> Option<StateSet>
    ensures { (i : ℕ) → i < 32 → has_in result i
        ≡ states_of_key (program_of program.now) (func_of func.now) key.0 i }
{
    match func.key_type(key) {
        Some(t) => first_states(program.state_count(t)),
        None => first_states(32),
    }
}

/// The states below 32 in which the object of an entry may be after the call.
fn states_after(program: &Program, func: &Func, entry: &Entry) -> Option<StateSet>
    ensures { (i : ℕ) → i < 32 → has_in result i
        ≡ after_set (program_of program.now) (func_of func.now) (entry_of entry.now) i }
{
    match entry.after {
        Some(states) => Some(states),
        None => key_states(program, func, entry.key),
    }
}

/// Asks the host for the state of an entry's object.
fn pick_entry(
    alloc: Global,
    scope: &Scope<'_>,
    out: &mut Items<CStmt>,
    entry: &Entry,
) -> Result<(), Memory>
    ensures { OnOk result (map stmt_of out.new ≡ map stmt_of out.old
        ++ picked (after_set (program_in scope.now) (func_in scope.now) (entry_of entry.now))) }
{
    match states_after(scope.program, scope.func, entry) {
        Some(states) => push_pick(alloc, out, states),
        None => Ok(()),
    }
}

/// Whether the host is asked for the state of an entry's object: its key is held after the call, and not in the state that
/// it had before.
fn is_asked(entry: &Entry) -> bool
    ensures { result ≡ is_asked (entry_of entry.now) }
{
    match entry.mode {
        Mode::Kept | Mode::Given | Mode::New => true,
        Mode::Taken | Mode::Bound(_) => false,
    }
}

/// Asks the host for the states of the clause's objects.
pub fn pick_clause(alloc: Global, scope: &Scope<'_>, out: &mut Items<CStmt>) -> Result<(), Memory>
    ensures { OnOk result (map stmt_of out.new ≡ map stmt_of out.old
        ++ clause_picks (program_in scope.now) (func_in scope.now) (func_in scope.now).clause) }
{
    for entry in scope.func.clause.as_slice() {
        if is_asked(entry) {
            pick_entry(alloc, scope, out, entry)?;
        }
    }
    Ok(())
}
