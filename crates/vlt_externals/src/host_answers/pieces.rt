//! Pieces of results, and the states of objects.

ghost use Rattle.std.specs.Prelude.{◌≡◌, filter, map};
ghost use Rattle.vlt_base.specs.States.{has_state};
ghost use Rattle.vlt_base.specs.declared.states.StateSet.{StateSet as ASet};
ghost use Rattle.vlt_core.specs.View.{program_of, func_of, entry_of, ty_of, case_key_of};
ghost use Rattle.vlt_core.specs.Core.{int as an_int};
ghost use Rattle.vlt_core.specs.Lookups.{is_held_after, after_set};
ghost use Rattle.vlt_meaning.specs.HostAnswers.{each, state_in, piece_of, key_state};
ghost use Rattle.vlt_externals.specs.HostAnswers.Read.{as_read, same, rest_of, left_in, piece_view, AreSets, entries_in, AreWithin};

use crate::host_answers::numbers::{below, number, state};
use vlt_base::StateSet;
use vlt_core::{Entry, Func, Mode, Program, Ty};

/// A number or a bool, or the state of a new object.
#[derive(Clone, Copy)]
pub enum Piece {
    Plain(i64),
    New(u8),
}

/// A number.
fn int<'h>(left: &'h [i64]) -> Option<(Piece, &'h [i64])>
    ensures { as_read piece_view result ≡ piece_of an_int left.now }
{
    match number(left) {
        Some((z, rest)) => Some((Piece::Plain(z), rest)),
        None => None,
    }
}

/// What a type asks for.
pub fn read_piece<'h>(t: &Ty, left: &'h [i64]) -> Option<(Piece, &'h [i64])>
    ensures { as_read piece_view result ≡ piece_of (ty_of t.now) left.now }
{
    match t {
        Ty::Bool => match below(2, left) {
            Some((z, rest)) => Some((Piece::Plain(z as i64), rest)),
            None => None,
        },
        Ty::Own(states, _, _) => match state(*states, left) {
            Some((s, rest)) => Some((Piece::New(s), rest)),
            None => None,
        },
        Ty::Int => int(left),
        Ty::Key(..) => int(left),
        Ty::Guard(..) => int(left),
        Ty::Var(..) => int(left),
        Ty::OwnVar(..) => int(left),
    }
}

/// Whether an entry's key is held after the call.
pub fn is_held_after(e: &Entry) -> bool
    ensures { result ≡ is_held_after (entry_of e.now) }
{
    match e.mode {
        Mode::Kept | Mode::Given | Mode::New | Mode::Bound(_) => true,
        Mode::Taken => false,
    }
}

/// The state of an entry's object after the call.
pub fn entry_state<'h>(
    program: &Program,
    g: &Func,
    e: &Entry,
    left: &'h [i64],
) -> Option<(u8, &'h [i64])>
    ensures { (s : ASet) → has_state s ≡
        after_set (program_of program.now) (func_of g.now) (entry_of e.now) →
        as_read same result ≡ state_in (after_set (program_of program.now) (func_of g.now)
        (entry_of e.now)) left.now }
{
    match program.states_or_all(g, e.key, e.after) {
        Some(states) => state(states, left),
        None => None,
    }
}

/// What is left after the states of entries that are held after the call, in the instance of this origin. A bound entry's is
/// the origin, so that nothing is read for it.
pub fn after_entries<'h>(
    program: &Program,
    g: &Func,
    origin: Option<u8>,
    entries: &[Entry],
    left: &'h [i64],
) -> Option<&'h [i64]>
    requires within { AreWithin (program_of program.now) (func_of g.now) origin
        (map entry_of entries.now) }
    ensures { AreSets (program_of program.now) (func_of g.now) (entries_in
        (program_of program.now) (func_of g.now) origin (map entry_of entries.now)) →
        left_in result ≡ rest_of (each (λ e. state_in (after_set (program_of program.now)
        (func_of g.now) e)) (filter is_held_after (entries_in (program_of program.now)
        (func_of g.now) origin (map entry_of entries.now))) left.now) }
{
    match entries.split_first() {
        None => Some(left),
        Some((first, rest)) => {
            let e = program.entry_in(g, origin, *first);
            if !is_held_after(&e) {
                return after_entries(program, g, origin, rest, left);
            }
            match entry_state(program, g, &e, left) {
                None => None,
                Some((_, left)) => after_entries(program, g, origin, rest, left),
            }
        }
    }
}

/// What is left after the states of a case's keys.
pub fn following_keys<'h>(keys: &[(u32, StateSet)], left: &'h [i64]) -> Option<&'h [i64]>
    ensures { left_in result ≡ rest_of (each key_state (map case_key_of keys.now) left.now) }
{
    match keys.split_first() {
        None => Some(left),
        Some((k, rest)) => match state(k.1, left) {
            None => None,
            Some((_, left)) => following_keys(rest, left),
        },
    }
}

/// What is left after a payload.
pub fn after_pieces<'h>(payload: &[Ty], left: &'h [i64]) -> Option<&'h [i64]>
    ensures { left_in result ≡ rest_of (each piece_of (map ty_of payload.now) left.now) }
{
    match payload.split_first() {
        None => Some(left),
        Some((t, rest)) => match read_piece(t, left) {
            None => None,
            Some((_, left)) => after_pieces(rest, left),
        },
    }
}
