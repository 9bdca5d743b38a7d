//! Whether a path shows a fault.

ghost use Rattle.std.specs.Prelude.{◌≡◌, ◌↔◌, ◌&&◌, ◌==◌, nat_lt, IsTrue, None, Some, slice_get};
ghost use Rattle.std.specs.Option.{option_map, option_copied};
ghost use Rattle.vlt_core.specs.Core.{a_key};
ghost use Rattle.vlt_core.specs.Derives.{start_map};
ghost use Rattle.vlt_core.specs.Found.{One, Has};
ghost use Rattle.vlt_core.specs.FaultView.{choices_of};
ghost use Rattle.vlt_core.specs.HeldView.{wanted_of};
ghost use Rattle.vlt_core.specs.Lookups.{is_before, is_held_before, is_owning_var};
ghost use Rattle.vlt_core.specs.View.{program_of, func_of, tok_of, mode_of, entry_of};
ghost use Rattle.vlt_core.specs.Instances.{instance};
ghost use Rattle.vlt_core.specs.Witness.{IsWitness, IsWitnessIn, PathMeets, Refuses, NoJoin};
ghost use Rattle.vlt_paths.specs.Comes.{Brings};
ghost use Rattle.vlt_paths.specs.Shown.{fault_view, join_fault, ShowsIn};

use crate::along::go_stmts;
use crate::comes::{Comes, Wants};
use crate::numbers::Numbers;
use crate::pair::Pair;
use crate::point::{Hunt, Point, Sought};
use crate::together::meet_stmts;
use vlt_base::{FnId, KeyId, VarId};
use vlt_core::{Choice, Entry, FaultKind, FlowFault, Func, Mode, Program, Tok, Wanted};
use vlt_rows::{has_instance, states_before};

/// Whether a key of this mode is held where the body begins.
fn is_held(mode: Mode) -> bool
    ensures { result ≡ is_before (mode_of mode) }
{
    match mode {
        Mode::Kept | Mode::Taken | Mode::Bound(_) => true,
        Mode::Given | Mode::New => false,
    }
}

/// Whether the entry says that the key is held where the body begins.
fn is_of_key(e: Entry, key: KeyId) -> bool
    ensures { result ≡ (is_held_before (entry_of e) && key.0 == (entry_of e).key) }
{
    is_held(e.mode) && key.0 == e.key.0
}

/// What a key comes with where the body begins in the instance of this origin.
fn key_start(p: &Program, f: &Func, origin: Option<u8>, key: KeyId) -> Comes
    ensures { (o : One) → Brings result o ↔ Has (start_map (program_of p.now)
        (instance (program_of p.now) (func_of f.now) origin) (a_key key.0)) o }
{
    for e in f.clause.as_slice() {
        if is_of_key(*e, key) {
            return Comes::Held(Numbers::of(states_before(p, f, origin, *e)));
        }
    }
    Comes::Absent
}

/// Whether a variable is full where the body begins.
fn is_full(f: &Func, v: VarId) -> bool
    ensures { result ≡ (nat_lt v.0 (func_of f.now).params && is_owning_var (func_of f.now) v.0) }
{
    v.0 < f.params && f.is_owning_var(v)
}

/// What a token comes with where the body begins in the instance of this origin.
fn start(p: &Program, f: &Func, origin: Option<u8>, tok: Tok) -> Comes
    ensures { (o : One) → Brings result o ↔ Has (start_map (program_of p.now)
        (instance (program_of p.now) (func_of f.now) origin) (tok_of tok)) o }
{
    match tok {
        Tok::Key(key) => key_start(p, f, origin, key),
        Tok::Var(v) => {
            if is_full(f, v) {
                Comes::Full
            } else {
                Comes::Absent
            }
        }
    }
}

/// Whether the path comes to such a row in the instance of this origin.
fn shows_row(
    p: &Program,
    f: &Func,
    origin: Option<u8>,
    tok: Tok,
    at: u32,
    wanted: Wanted,
    path: &[Choice],
) -> bool
    ensures { IsTrue result ↔ PathMeets (program_of p.now)
        (instance (program_of p.now) (func_of f.now) origin) (tok_of tok)
        (Refuses (tok_of tok) at (wanted_of wanted)) NoJoin (choices_of path.now) }
{
    let row = Some(Sought {
        at,
        wants: Wants::of(wanted),
    });
    let begin = Point {
        comes: start(p, f, origin, tok),
        rest: path,
        met: false,
    };
    let end = go_stmts(
        p,
        f,
        Hunt { origin, tok, row },
        false,
        f.body.as_slice(),
        begin,
    );
    end.point.met
}

/// Whether the path shows the fault in its instance of the function.
pub fn is_shown_in(p: &Program, f: &Func, fault: &FlowFault, path: &[Choice]) -> bool
    ensures { IsTrue result ↔ ShowsIn (program_of p.now) (func_of f.now) (fault_view fault.now)
        (choices_of path.now) None }
{
    if !has_instance(p, f, fault.origin) {
        return false;
    }
    match fault.kind {
        FaultKind::Row { wanted, .. } => {
            shows_row(p, f, fault.origin, fault.tok, fault.at, wanted, path)
        }
        FaultKind::Join { .. } => false,
    }
}

pub fn func_at(p: &Program, fn_id: FnId) -> Option<&Func>
    ensures { option_map func_of (option_copied result)
        ≡ slice_get (program_of p.now).fns fn_id.0 }
{
    p.fns.get(fn_id.0 as usize)
}

/// Whether both paths come to one join of this place in the instance of this origin, the first without the token and the
/// second with it.
fn shows_join(
    p: &Program,
    f: &Func,
    origin: Option<u8>,
    tok: Tok,
    at: u32,
    first: &[Choice],
    second: &[Choice],
) -> bool
    ensures { IsTrue result ↔ IsWitnessIn (program_of p.now)
        (instance (program_of p.now) (func_of f.now) origin)
        (join_fault (tok_of tok) at) (choices_of first.now) (Some (choices_of second.now)) }
{
    let comes = start(p, f, origin, tok);
    let pair = Pair {
        place: at,
        first: Point {
            comes,
            rest: first,
            met: false,
        },
        second: Point {
            comes,
            rest: second,
            met: false,
        },
    };
    meet_stmts(
        p,
        f,
        Hunt {
            origin,
            tok,
            row: None,
        },
        false,
        f.body.as_slice(),
        pair,
    )
}

/// Whether the paths show the fault in its instance of the function.
fn are_shown_in(
    p: &Program,
    f: &Func,
    fault: &FlowFault,
    first: &[Choice],
    second: &[Choice],
) -> bool
    ensures { IsTrue result ↔ ShowsIn (program_of p.now) (func_of f.now) (fault_view fault.now)
        (choices_of first.now) (Some (choices_of second.now)) }
{
    if !has_instance(p, f, fault.origin) {
        return false;
    }
    match fault.kind {
        FaultKind::Row { .. } => false,
        FaultKind::Join { .. } => {
            shows_join(p, f, fault.origin, fault.tok, fault.at, first, second)
        }
    }
}

/// Whether two paths are a witness of the fault.
pub fn is_join_witness(p: &Program, fault: &FlowFault, first: &[Choice], second: &[Choice]) -> bool
    ensures { IsTrue result ↔ IsWitness (program_of p.now) (fault_view fault.now)
        (choices_of first.now) (Some (choices_of second.now)) }
{
    match func_at(p, fault.fn_id) {
        None => false,
        Some(f) => are_shown_in(p, f, fault, first, second),
    }
}
