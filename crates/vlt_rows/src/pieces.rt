//! Rows on a variable or its key.

ghost use Rattle.std.specs.Prelude.{◌∷◌, [], map};
ghost use Rattle.vlt_core.specs.View.{program_of, func_of, tok_of, vars_of};
ghost use Rattle.vlt_core.specs.HeldView.{row_of, wanted_of, after_of, toks_of};
ghost use Rattle.vlt_core.specs.Maps.{away_row, wants_in, becomes_held};
ghost use Rattle.vlt_core.specs.Rows.{row, touch_rows, key_row, end_row, empty_row, fill_rows};
ghost use Rattle.vlt_rows.specs.Wide.{states_named};
ghost use Rattle.vlt_rows.specs.Taking.{TookOrStopped};

use crate::sink::{RowError, RowSink, WideRow};
use crate::states::{States, permitted_states, release_states};
use vlt_base::VarId;
use vlt_core::{After, Func, Program, Row, Tok, Wanted};

pub fn give_row<S: RowSink>(to: &mut S, row: Row) -> Result<(), RowError>
    ensures { TookOrStopped S.takes S.stops (row_of row ∷ [])
        to.old to.new result }
{
    to.take(row)
}

/// A row that wants these states.
pub fn give_wanted<S: RowSink>(
    to: &mut S,
    tok: Tok,
    states: States,
    after: After,
) -> Result<(), RowError>
    ensures { TookOrStopped S.takes S.stops
        (row (tok_of tok) (wants_in (states_named states)) (after_of after) ∷ [])
        to.old to.new result }
{
    match states {
        States::Set(set) => give_row(
            to,
            Row {
                tok,
                wanted: Wanted::In(set),
                after,
            },
        ),
        _ => to.take_wide(WideRow::Wants { tok, states, after }),
    }
}

/// A row that leaves these states.
pub fn give_left<S: RowSink>(
    to: &mut S,
    tok: Tok,
    wanted: Wanted,
    states: States,
) -> Result<(), RowError>
    ensures { TookOrStopped S.takes S.stops
        (row (tok_of tok) (wanted_of wanted) (becomes_held (states_named states)) ∷ [])
        to.old to.new result }
{
    match states {
        States::Set(set) => give_row(
            to,
            Row {
                tok,
                wanted,
                after: After::Set(set),
            },
        ),
        _ => to.take_wide(WideRow::Leaves {
            tok,
            wanted,
            states,
        }),
    }
}

/// The row of a touch of a field.
pub fn give_touch<S: RowSink>(
    p: &Program,
    f: &Func,
    x: VarId,
    position: u32,
    to: &mut S,
) -> Result<(), RowError>
    ensures { TookOrStopped S.takes S.stops (touch_rows (program_of p.now)
        (func_of f.now) x.0 position) to.old to.new result }
{
    if let Some(r) = f.reference(x) {
        let states = permitted_states(p, r.type_id, position);
        give_wanted(to, Tok::Key(r.key), states, After::Same)?;
    }
    if let Some(g) = f.guarded(x) {
        give_row(
            to,
            Row {
                tok: Tok::Key(g.key),
                wanted: Wanted::Any,
                after: After::Same,
            },
        )?;
    }
    Ok(())
}

/// A row on the key of a tracked variable.
pub fn give_key<S: RowSink>(
    f: &Func,
    x: VarId,
    wanted: Wanted,
    after: After,
    to: &mut S,
) -> Result<(), RowError>
    ensures { TookOrStopped S.takes S.stops (key_row (func_of f.now) x.0 (wanted_of wanted)
        (after_of after)) to.old to.new result }
{
    match f.reference(x) {
        None => Ok(()),
        Some(r) => give_row(
            to,
            Row {
                tok: Tok::Key(r.key),
                wanted,
                after,
            },
        ),
    }
}

/// The key of a tracked variable, in a state of its type's release set, is gone.
pub fn give_end<S: RowSink>(p: &Program, f: &Func, x: VarId, to: &mut S) -> Result<(), RowError>
    ensures { TookOrStopped S.takes S.stops (end_row (program_of p.now) (func_of f.now) x.0)
        to.old to.new result }
{
    match f.reference(x) {
        None => Ok(()),
        Some(r) => give_wanted(
            to,
            Tok::Key(r.key),
            release_states(p, r.type_id),
            After::Absent,
        ),
    }
}

/// An owning variable's value is gone.
pub fn give_empty<S: RowSink>(v: VarId, to: &mut S) -> Result<(), RowError>
    ensures { TookOrStopped S.takes S.stops (empty_row v.0 ∷ [])
        to.old to.new result }
{
    give_row(
        to,
        Row {
            tok: Tok::Var(v),
            wanted: Wanted::Full,
            after: After::Absent,
        },
    )
}

/// A variable is filled, if it is an owning one.
pub fn give_fill<S: RowSink>(f: &Func, v: VarId, to: &mut S) -> Result<(), RowError>
    ensures { TookOrStopped S.takes S.stops (fill_rows (func_of f.now) (v.0 ∷ []))
        to.old to.new result }
{
    if f.is_owning_var(v) {
        give_row(
            to,
            Row {
                tok: Tok::Var(v),
                wanted: Wanted::Absent,
                after: After::Full,
            },
        )
    } else {
        Ok(())
    }
}

/// The owning ones of these variables are filled.
pub fn give_fills<S: RowSink>(f: &Func, vs: &[VarId], to: &mut S) -> Result<(), RowError>
    ensures { TookOrStopped S.takes S.stops (fill_rows (func_of f.now) (vars_of vs.now))
        to.old to.new result }
{
    for v in vs {
        give_fill(f, *v, to)?;
    }
    Ok(())
}

/// These tokens are absent.
pub fn give_gone<S: RowSink>(toks: &[Tok], to: &mut S) -> Result<(), RowError>
    ensures { TookOrStopped S.takes S.stops (map away_row (toks_of toks.now))
        to.old to.new result }
{
    for tok in toks {
        give_row(
            to,
            Row {
                tok: *tok,
                wanted: Wanted::Absent,
                after: After::Absent,
            },
        )?;
    }
    Ok(())
}
