//! The rows of statements.

ghost use Rattle.std.specs.Prelude.{◌≡◌, ◌∷◌, [], ◌<◌, ◌==◌, Option, None, Some, map};
ghost use Rattle.std.specs.List.{flat_map};
ghost use Rattle.vlt_base.specs.States.{has_state};
ghost use Rattle.vlt_core.specs.View.{program_of, func_of, form_of, expr_of, operand_of, case_key_of, vars_of, keys_of};
ghost use Rattle.vlt_core.specs.HeldView.{wanted_of, after_of};
ghost use Rattle.vlt_core.specs.Core.{put, make, own, unpack, build, swap, open_into, adopt};
ghost use Rattle.vlt_core.specs.Core.{a_key};
ghost use Rattle.vlt_core.specs.Maps.{becomes_held, wants_absent, wants_held};
ghost use Rattle.vlt_core.specs.Lookups.{variant_of, guarded_of, reference_of, release_set};
ghost use Rattle.vlt_core.specs.Rows.{simple_rows, arm_rows, focus_end_rows, on_key, row, key_row};
ghost use Rattle.vlt_rows.specs.Taking.{TookOrStopped};
ghost use Rattle.vlt_rows.specs.Pieces.{unpacked_rows, case_rows, case_key_rows, switch_rows, focus_rows, own_rows};

use crate::calls::give_call;
use crate::expr::{give_expr, give_operand, give_operands};
use crate::pieces::{
    give_empty, give_end, give_fill, give_fills, give_key, give_left, give_row, give_touch,
};
use crate::sink::{RowError, RowSink};
use crate::states::{one_state, release_states};
use vlt_base::{KeyId, StateSet, VarId};
use vlt_core::{After, Expr, Form, Func, Operand, Program, Row, Tok, Wanted};

/// The set of one number.
fn only(s: u8) -> StateSet
    requires { s < 32 }
    ensures { has_state result ≡ (λ i. i == s) }
{
    StateSet::only(s)
}

/// `x.f = e;`
fn give_put<S: RowSink>(
    p: &Program,
    f: &Func,
    x: VarId,
    position: u32,
    e: &Expr,
    to: &mut S,
) -> Result<(), RowError>
    ensures { TookOrStopped S.takes S.stops
        (simple_rows (program_of p.now) (func_of f.now)
        (put x.0 position (expr_of e.now))) to.old to.new result }
{
    give_expr(p, f, e, to)?;
    give_touch(p, f, x, position, to)
}

/// A new object: its operands are gone, and its key is held in the first state.
fn give_make<S: RowSink>(
    p: &Program,
    f: &Func,
    x: VarId,
    args: &[Operand],
    to: &mut S,
) -> Result<(), RowError>
    ensures { TookOrStopped S.takes S.stops
        (simple_rows (program_of p.now) (func_of f.now)
        (make x.0 (map operand_of args.now))) to.old to.new result }
{
    give_operands(p, f, args, to)?;
    give_key(f, x, Wanted::Absent, After::Set(only(0)), to)
}

/// `become x@s;`
fn give_become<S: RowSink>(f: &Func, x: VarId, state: u8, to: &mut S) -> Result<(), RowError>
    ensures { TookOrStopped S.takes S.stops
        (key_row (func_of f.now) x.0 wants_held
        (becomes_held (λ s. s == state))) to.old to.new result }
{
    match f.reference(x) {
        None => Ok(()),
        Some(r) => give_left(to, Tok::Key(r.key), Wanted::Any, one_state(state)),
    }
}

/// An owning variable is filled.
fn give_own<S: RowSink>(
    p: &Program,
    f: &Func,
    v: VarId,
    value: &Operand,
    to: &mut S,
) -> Result<(), RowError>
    ensures { TookOrStopped S.takes S.stops
        (simple_rows (program_of p.now) (func_of f.now)
        (own v.0 (operand_of value.now))) to.old to.new result }
{
    give_operand(p, f, value, to)?;
    give_fill(f, v, to)
}

/// The object of an owning variable comes under a key.
fn give_unpacked<S: RowSink>(f: &Func, x: VarId, v: VarId, to: &mut S) -> Result<(), RowError>
    ensures { TookOrStopped S.takes S.stops
        (unpacked_rows (func_of f.now) x.0 v.0) to.old to.new result }
{
    match f.owning_states(v) {
        None => Ok(()),
        Some(states) => give_key(f, x, Wanted::Absent, After::Set(states), to),
    }
}

/// `tracked(K) T x = v;`
fn give_unpack<S: RowSink>(
    p: &Program,
    f: &Func,
    x: VarId,
    v: VarId,
    to: &mut S,
) -> Result<(), RowError>
    ensures { TookOrStopped S.takes S.stops
        (simple_rows (program_of p.now) (func_of f.now) (unpack x.0 v.0)) to.old to.new result }
{
    give_empty(v, to)?;
    give_unpacked(f, x, v, to)
}

/// A key of a case: its object goes into the variant, or comes out of it.
fn give_case_key<S: RowSink>(
    args: &[KeyId],
    opens: bool,
    key: (u32, StateSet),
    to: &mut S,
) -> Result<(), RowError>
    ensures { TookOrStopped S.takes S.stops
        (case_key_rows (keys_of args.now) opens (case_key_of key)) to.old to.new result }
{
    match args.get(key.0 as usize) {
        None => Ok(()),
        Some(k) if opens => give_row(
            to,
            Row {
                tok: Tok::Key(*k),
                wanted: Wanted::Absent,
                after: After::Set(key.1),
            },
        ),
        Some(k) => give_row(
            to,
            Row {
                tok: Tok::Key(*k),
                wanted: Wanted::In(key.1),
                after: After::Absent,
            },
        ),
    }
}

/// The keys of a case.
fn give_keys<S: RowSink>(
    args: &[KeyId],
    opens: bool,
    keys: &[(u32, StateSet)],
    to: &mut S,
) -> Result<(), RowError>
    ensures { TookOrStopped S.takes S.stops
        (flat_map (case_key_rows (keys_of args.now) opens)
        (map case_key_of keys.now)) to.old to.new result }
{
    for key in keys {
        give_case_key(args, opens, *key, to)?;
    }
    Ok(())
}

/// The keys of a case of a variable's variant.
fn give_case<S: RowSink>(
    p: &Program,
    f: &Func,
    v: VarId,
    case: u8,
    opens: bool,
    to: &mut S,
) -> Result<(), RowError>
    ensures { TookOrStopped S.takes S.stops
        (case_rows (program_of p.now) opens case
        (variant_of (func_of f.now) v.0)) to.old to.new result }
{
    match f.variant(v) {
        None => Ok(()),
        Some(t) => match p.case_at(t.type_id, case) {
            None => Ok(()),
            Some(d) => give_keys(t.args, opens, d.keys.as_slice(), to),
        },
    }
}

/// `v = 'Case(..);`
pub fn give_build<S: RowSink>(
    p: &Program,
    f: &Func,
    v: VarId,
    case: u8,
    args: &[Operand],
    to: &mut S,
) -> Result<(), RowError>
    ensures { TookOrStopped S.takes S.stops
        (simple_rows (program_of p.now) (func_of f.now)
        (build v.0 case (map operand_of args.now))) to.old to.new result }
{
    give_operands(p, f, args, to)?;
    give_case(p, f, v, case, false, to)?;
    give_fill(f, v, to)
}

/// `swap x.f, v;`
fn give_swap<S: RowSink>(
    p: &Program,
    f: &Func,
    x: VarId,
    position: u32,
    v: VarId,
    to: &mut S,
) -> Result<(), RowError>
    ensures { TookOrStopped S.takes S.stops
        (simple_rows (program_of p.now) (func_of f.now)
        (swap x.0 position v.0)) to.old to.new result }
{
    give_touch(p, f, x, position, to)?;
    give_row(
        to,
        Row {
            tok: Tok::Var(v),
            wanted: Wanted::Full,
            after: After::Full,
        },
    )
}

/// `open x into (..);`
fn give_open<S: RowSink>(
    p: &Program,
    f: &Func,
    x: VarId,
    vs: &[VarId],
    to: &mut S,
) -> Result<(), RowError>
    ensures { TookOrStopped S.takes S.stops
        (simple_rows (program_of p.now) (func_of f.now)
        (open_into x.0 (vars_of vs.now))) to.old to.new result }
{
    give_end(p, f, x, to)?;
    give_fills(f, vs, to)
}

/// `G:T y = adopt x into r;`
pub fn give_adopt<S: RowSink>(
    p: &Program,
    f: &Func,
    y: VarId,
    x: VarId,
    r: VarId,
    to: &mut S,
) -> Result<(), RowError>
    ensures { TookOrStopped S.takes S.stops
        (simple_rows (program_of p.now) (func_of f.now) (adopt y.0 x.0 r.0)) to.old to.new result }
{
    give_end(p, f, x, to)?;
    give_key(f, r, Wanted::Any, After::Same, to)
}

/// A switch on an owning variable empties it.
pub fn give_switch<S: RowSink>(f: &Func, v: VarId, to: &mut S) -> Result<(), RowError>
    ensures { TookOrStopped S.takes S.stops
        (switch_rows (func_of f.now) v.0) to.old to.new result }
{
    if f.is_owning_var(v) {
        give_empty(v, to)
    } else {
        Ok(())
    }
}

/// The rows of an arm, before its block.
pub fn give_arm<S: RowSink>(
    p: &Program,
    f: &Func,
    v: VarId,
    case: u8,
    vs: &[VarId],
    to: &mut S,
) -> Result<(), RowError>
    ensures { TookOrStopped S.takes S.stops
        (arm_rows (program_of p.now) (func_of f.now) v.0 case
        (vars_of vs.now)) to.old to.new result }
{
    give_case(p, f, v, case, true, to)?;
    give_fills(f, vs, to)
}

/// A row on the guard of a guarded variable.
fn give_guard<S: RowSink>(
    f: &Func,
    y: VarId,
    wanted: Wanted,
    after: After,
    to: &mut S,
) -> Result<(), RowError>
    ensures { TookOrStopped S.takes S.stops
        (on_key (guarded_of (func_of f.now) y.0)
        (λ g. row (a_key g.key) (wanted_of wanted) (after_of after))) to.old to.new result }
{
    match f.guarded(y) {
        None => Ok(()),
        Some(g) => give_row(
            to,
            Row {
                tok: Tok::Key(g.key),
                wanted,
                after,
            },
        ),
    }
}

/// The key that a focus binds is held in the release set.
fn give_focused<S: RowSink>(p: &Program, f: &Func, z: VarId, to: &mut S) -> Result<(), RowError>
    ensures { TookOrStopped S.takes S.stops
        (on_key (reference_of (func_of f.now) z.0) (λ r. row (a_key r.key) wants_absent
        (becomes_held (release_set (program_of p.now) r.type)))) to.old to.new result }
{
    match f.reference(z) {
        None => Ok(()),
        Some(r) => give_left(
            to,
            Tok::Key(r.key),
            Wanted::Absent,
            release_states(p, r.type_id),
        ),
    }
}

/// The rows of a focus, before its block.
pub fn give_focus<S: RowSink>(
    p: &Program,
    f: &Func,
    y: VarId,
    z: VarId,
    to: &mut S,
) -> Result<(), RowError>
    ensures { TookOrStopped S.takes S.stops
        (focus_rows (program_of p.now) (func_of f.now) y.0 z.0) to.old to.new result }
{
    give_guard(f, y, Wanted::Any, After::Lend, to)?;
    give_focused(p, f, z, to)
}

/// The rows of a focus's end, after those of its block's end.
pub fn give_focus_end<S: RowSink>(
    p: &Program,
    f: &Func,
    y: VarId,
    z: VarId,
    to: &mut S,
) -> Result<(), RowError>
    ensures { TookOrStopped S.takes S.stops
        (focus_end_rows (program_of p.now) (func_of f.now) y.0 z.0) to.old to.new result }
{
    give_end(p, f, z, to)?;
    give_guard(f, y, Wanted::Lent, After::Unlend, to)
}

/// The rows of a statement without blocks that goes on to the next one; none of any other.
pub fn give_form<S: RowSink>(p: &Program, f: &Func, form: &Form, to: &mut S) -> Result<(), RowError>
    ensures { TookOrStopped S.takes S.stops
        (own_rows (program_of p.now) (func_of f.now) (form_of form.now)) to.old to.new result }
{
    match form {
        Form::Set { v: _, e } => give_expr(p, f, e, to),
        Form::Print { e } => give_expr(p, f, e, to),
        Form::Put { x, field, e } => give_put(p, f, *x, *field, e, to),
        Form::New { x, args } => give_make(p, f, *x, args.as_slice(), to),
        Form::Become { x, state } => give_become(f, *x, *state, to),
        Form::Release { x } => give_end(p, f, *x, to),
        Form::Drop { v } => give_empty(*v, to),
        Form::Own { v, value } => give_own(p, f, *v, value, to),
        Form::Unpack { x, v } => give_unpack(p, f, *x, *v, to),
        Form::Build { v, case, args } => give_build(p, f, *v, *case, args.as_slice(), to),
        Form::Call {
            f: g,
            target,
            keys,
            args,
        } => give_call(p, f, *g, *target, keys.as_slice(), args.as_slice(), to),
        Form::Swap { x, field, v } => give_swap(p, f, *x, *field, *v, to),
        Form::Open { x, into } => give_open(p, f, *x, into.as_slice(), to),
        Form::Adopt { y, x, r } => give_adopt(p, f, *y, *x, *r, to),
        Form::Input { .. } => Ok(()),
        Form::If { .. } => Ok(()),
        Form::While { .. } => Ok(()),
        Form::Switch { .. } => Ok(()),
        Form::Focus { .. } => Ok(()),
        Form::Scope { .. } => Ok(()),
        Form::Return { .. } => Ok(()),
        Form::Jump { .. } => Ok(()),
    }
}
