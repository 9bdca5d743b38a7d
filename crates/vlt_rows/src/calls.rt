//! The rows of calls and returns.

ghost use Rattle.std.specs.Prelude.{◌≡◌, ◌∷◌, [], Some, map};
ghost use Rattle.std.specs.Option.{option_map};
ghost use Rattle.vlt_core.specs.View.{program_of, func_of, operand_of, entry_of, keys_of, mode_of, states_of};
ghost use Rattle.vlt_core.specs.HeldView.{wanted_of, toks_of};
ghost use Rattle.vlt_core.specs.Maps.{wants_in, becomes_absent};
ghost use Rattle.vlt_core.specs.Core.{call, return};
ghost use Rattle.vlt_core.specs.Instances.{instance, entry_in};
ghost use Rattle.vlt_core.specs.Lookups.{is_before, is_after, is_fresh};
ghost use Rattle.vlt_core.specs.Rows.{rows_of, held_in, key_row, entry_row, entry_wanted, called_row, called_rows, target_rows, new_rows, given_back_rows, return_rows, tokens_of};
ghost use Rattle.vlt_rows.specs.Taking.{TookOrStopped};
ghost use Rattle.vlt_rows.specs.Wide.{states_named};
ghost use Rattle.vlt_rows.specs.Pieces.{entry_rows, callee_rows, value_rows, new_row, given_back_row, handed_back_rows};

use crate::expr::{give_operand, give_operands};
use crate::pieces::{give_fill, give_gone, give_left, give_row, give_wanted};
use crate::sink::{RowError, RowSink};
use crate::states::{States, side_states, states_after, states_up_to};
use vlt_base::{FnId, KeyId, StateSet, VarId};
use vlt_core::{After, Entry, Expr, Func, Mode, Operand, Program, Row, Tok, Wanted};

/// Whether the key is held before the call.
fn is_before(mode: Mode) -> bool
    ensures { result ≡ is_before (mode_of mode) }
{
    match mode {
        Mode::Kept | Mode::Taken | Mode::Bound(_) => true,
        Mode::Given | Mode::New => false,
    }
}

/// Whether the key is held after the call.
fn is_after(mode: Mode) -> bool
    ensures { result ≡ is_after (mode_of mode) }
{
    match mode {
        Mode::Taken => false,
        Mode::Kept | Mode::Given | Mode::New | Mode::Bound(_) => true,
    }
}

fn is_new(mode: Mode) -> bool
    ensures { result ≡ is_fresh (mode_of mode) }
{
    match mode {
        Mode::New => true,
        Mode::Kept | Mode::Taken | Mode::Given | Mode::Bound(_) => false,
    }
}

fn held_in(states: Option<StateSet>) -> Wanted
    ensures { wanted_of result ≡ held_in (states_of states) }
{
    match states {
        None => Wanted::Any,
        Some(states) => Wanted::In(states),
    }
}

fn wanted_at(e: Entry) -> Wanted
    ensures { wanted_of result ≡ entry_wanted (entry_of e) }
{
    if is_before(e.mode) {
        held_in(e.before)
    } else {
        Wanted::Absent
    }
}

/// The row of a clause's entry at a call, where this key of the caller's stands for its key.
fn give_entry_at<S: RowSink>(
    p: &Program,
    f: &Func,
    k: KeyId,
    e: Entry,
    to: &mut S,
) -> Result<(), RowError>
    ensures { TookOrStopped S.takes S.stops
        (entry_row (program_of p.now) (func_of f.now) k.0 (entry_of e) ∷ [])
        to.old to.new result }
{
    if is_after(e.mode) {
        give_left(to, Tok::Key(k), wanted_at(e), side_states(p, f, k, e.after))
    } else {
        give_row(
            to,
            Row {
                tok: Tok::Key(k),
                wanted: wanted_at(e),
                after: After::Absent,
            },
        )
    }
}

/// The same, where a bound entry's key keeps its state.
fn give_called_at<S: RowSink>(
    p: &Program,
    f: &Func,
    k: KeyId,
    e: Entry,
    to: &mut S,
) -> Result<(), RowError>
    ensures { TookOrStopped S.takes S.stops
        (called_row (program_of p.now) (func_of f.now) k.0 (entry_of e) ∷ [])
        to.old to.new result }
{
    match e.mode {
        Mode::Bound(state) => {
            give_wanted(to, Tok::Key(k), states_up_to(p, f, k, state), After::Same)
        }
        _ => give_entry_at(p, f, k, e, to),
    }
}

/// The row of a clause's entry at a call.
fn give_entry<S: RowSink>(
    p: &Program,
    f: &Func,
    keys: &[KeyId],
    e: Entry,
    to: &mut S,
) -> Result<(), RowError>
    ensures { TookOrStopped S.takes S.stops
        (entry_rows (program_of p.now) (func_of f.now) (keys_of keys.now) (entry_of e))
        to.old to.new result }
{
    match keys.get(e.key.0 as usize) {
        None => Ok(()),
        Some(k) => give_called_at(p, f, *k, e, to),
    }
}

/// The rows of a callee's clause.
fn give_clause<S: RowSink>(
    p: &Program,
    f: &Func,
    keys: &[KeyId],
    clause: &[Entry],
    to: &mut S,
) -> Result<(), RowError>
    ensures { TookOrStopped S.takes S.stops
        (called_rows (program_of p.now) (func_of f.now) (keys_of keys.now)
        (map entry_of clause.now))
        to.old to.new result }
{
    for e in clause {
        give_entry(p, f, keys, *e, to)?;
    }
    Ok(())
}

fn give_callee<S: RowSink>(
    p: &Program,
    f: &Func,
    g: FnId,
    keys: &[KeyId],
    to: &mut S,
) -> Result<(), RowError>
    ensures { TookOrStopped S.takes S.stops
        (callee_rows (program_of p.now) (func_of f.now) g.0 (keys_of keys.now))
        to.old to.new result }
{
    match p.fns.get(g.0 as usize) {
        None => Ok(()),
        Some(callee) => give_clause(p, f, keys, callee.clause.as_slice(), to),
    }
}

fn give_target<S: RowSink>(f: &Func, target: Option<VarId>, to: &mut S) -> Result<(), RowError>
    ensures { TookOrStopped S.takes S.stops
        (target_rows (func_of f.now) (option_map (λ v. v.0) target)) to.old to.new result }
{
    match target {
        None => Ok(()),
        Some(v) => give_fill(f, v, to),
    }
}

/// The rows of a call.
pub fn give_call<S: RowSink>(
    p: &Program,
    f: &Func,
    g: FnId,
    target: Option<VarId>,
    keys: &[KeyId],
    args: &[Operand],
    to: &mut S,
) -> Result<(), RowError>
    ensures { TookOrStopped S.takes S.stops
        (rows_of (program_of p.now) (func_of f.now) []
        (call g.0 (option_map (λ v. v.0) target) (keys_of keys.now) (map operand_of args.now)))
        to.old to.new result }
{
    give_operands(p, f, args, to)?;
    give_callee(p, f, g, keys, to)?;
    give_target(f, target, to)
}

fn give_value<S: RowSink>(
    p: &Program,
    f: &Func,
    value: &Option<Operand>,
    to: &mut S,
) -> Result<(), RowError>
    ensures { TookOrStopped S.takes S.stops
        (value_rows (program_of p.now) (func_of f.now) (option_map operand_of value.now))
        to.old to.new result }
{
    match value {
        None => Ok(()),
        Some(operand) => give_operand(p, f, operand, to),
    }
}

/// The key of a returned variable, in one of these states, is gone.
fn give_returned<S: RowSink>(f: &Func, x: VarId, states: States, to: &mut S) -> Result<(), RowError>
    ensures { TookOrStopped S.takes S.stops
        (key_row (func_of f.now) x.0 (wants_in (states_named states)) becomes_absent)
        to.old to.new result }
{
    match f.reference(x) {
        None => Ok(()),
        Some(r) => give_wanted(to, Tok::Key(r.key), states, After::Absent),
    }
}

/// The row of an entry for a new object, which is the returned variable's.
fn give_new<S: RowSink>(
    p: &Program,
    f: &Func,
    origin: Option<u8>,
    value: &Option<Operand>,
    e: Entry,
    to: &mut S,
) -> Result<(), RowError>
    ensures { TookOrStopped S.takes S.stops
        (new_row (program_of p.now) (func_of f.now) (option_map operand_of value.now)
        (entry_in (program_of p.now) (func_of f.now) origin (entry_of e)))
        to.old to.new result }
{
    if !is_new(e.mode) {
        return Ok(());
    }
    match value {
        Some(Operand::Pure(Expr::Var(x))) => {
            give_returned(f, *x, states_after(p, f, origin, e), to)
        }
        _ => Ok(()),
    }
}

fn give_news<S: RowSink>(
    p: &Program,
    f: &Func,
    origin: Option<u8>,
    value: &Option<Operand>,
    to: &mut S,
) -> Result<(), RowError>
    ensures { TookOrStopped S.takes S.stops
        (new_rows (program_of p.now) (instance (program_of p.now) (func_of f.now) origin)
        (option_map operand_of value.now))
        to.old to.new result }
{
    for e in f.clause.as_slice() {
        give_new(p, f, origin, value, *e, to)?;
    }
    Ok(())
}

/// The row of an entry whose key the caller has back.
fn give_given_back<S: RowSink>(
    p: &Program,
    f: &Func,
    origin: Option<u8>,
    e: Entry,
    to: &mut S,
) -> Result<(), RowError>
    ensures { TookOrStopped S.takes S.stops
        (given_back_row (program_of p.now) (func_of f.now)
        (entry_in (program_of p.now) (func_of f.now) origin (entry_of e))) to.old to.new result }
{
    if !is_after(e.mode) || is_new(e.mode) {
        return Ok(());
    }
    let states = states_after(p, f, origin, e);
    give_wanted(to, Tok::Key(e.key), states, After::Absent)
}

fn give_given_backs<S: RowSink>(
    p: &Program,
    f: &Func,
    origin: Option<u8>,
    to: &mut S,
) -> Result<(), RowError>
    ensures { TookOrStopped S.takes S.stops (given_back_rows (program_of p.now)
        (instance (program_of p.now) (func_of f.now) origin)) to.old to.new result }
{
    for e in f.clause.as_slice() {
        give_given_back(p, f, origin, *e, to)?;
    }
    Ok(())
}

/// The rows of a return in the instance of this origin, before those that want the function's tokens
/// away.
pub fn give_handed_back<S: RowSink>(
    p: &Program,
    f: &Func,
    origin: Option<u8>,
    value: &Option<Operand>,
    to: &mut S,
) -> Result<(), RowError>
    ensures { TookOrStopped S.takes S.stops
        (handed_back_rows (program_of p.now) (instance (program_of p.now) (func_of f.now) origin)
        (option_map operand_of value.now))
        to.old to.new result }
{
    give_value(p, f, value, to)?;
    give_news(p, f, origin, value, to)?;
    give_given_backs(p, f, origin, to)
}

/// The rows of a return in the instance of this origin; `tokens` has the tokens of the function.
pub fn give_return<S: RowSink>(
    p: &Program,
    f: &Func,
    origin: Option<u8>,
    tokens: &[Tok],
    value: &Option<Operand>,
    to: &mut S,
) -> Result<(), RowError>
    requires { toks_of tokens.now ≡ tokens_of (func_of f.now) }
    ensures { TookOrStopped S.takes S.stops
        (return_rows (program_of p.now) (instance (program_of p.now) (func_of f.now) origin)
        (option_map operand_of value.now))
        to.old to.new result }
{
    give_handed_back(p, f, origin, value, to)?;
    give_gone(tokens, to)
}
