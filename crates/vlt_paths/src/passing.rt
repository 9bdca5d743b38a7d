//! A path through the rows of statements, without memory.

ghost use Rattle.std.specs.Prelude.{◌≡◌, ◌↔◌, ◌∷◌, [], IsTrue, List, map};
ghost use Rattle.std.specs.List.{list_any};
ghost use Rattle.std.specs.Option.{option_map};
ghost use Rattle.vlt_core.specs.Maps as maps;
ghost use Rattle.vlt_core.specs.Maps.{is_tok, away_row};
ghost use Rattle.vlt_core.specs.Rows.{row, expr_rows, arm_rows, focus_end_rows, return_rows, tokens_of, in_order};
ghost use Rattle.vlt_core.specs.Core as core;
ghost use Rattle.vlt_core.specs.Instances.{instance};
ghost use Rattle.vlt_core.specs.View.{program_of, func_of, tok_of, expr_of, form_of, operand_of, vars_of};
ghost use Rattle.vlt_core.specs.HeldView.{toks_of};
ghost use Rattle.vlt_rows.specs.Pieces.{own_rows, switch_rows, focus_rows, handed_back_rows};
ghost use Rattle.vlt_paths.specs.Comes.{SoughtBy, wants_of, leaves_of};
ghost use Rattle.vlt_paths.specs.Along.{IsPast, MeetsRow, IsBound};
ghost use Rattle.vlt_paths.specs.Taken.{IsTaken};

use crate::comes::{Leaves, Wants};
use crate::numbers::Numbers;
use crate::point::{Hunt, Point};
use vlt_base::{VarId, either};
use vlt_core::{Expr, Form, Func, Operand, Program, Row, Tok};
use vlt_rows::{
    RowError, RowSink, WideRow, give_arm, give_expr, give_focus, give_focus_end, give_form,
    give_gone, give_handed_back, give_switch,
};

/// A path that passes rows at a place.
#[derive(Clone, Copy)]
struct Passing<'a> {
    hunt: Hunt,
    at: u32,
    point: Point<'a>,
}

impl Hunt {
    /// Whether a row of this token at this place, which wants this, is the one.
    fn is_sought(self, at: u32, tok: Tok, wants: Wants) -> bool
        ensures { IsTrue result
            ↔ SoughtBy (tok_of self.tok) self.row at (tok_of tok) (wants_of wants) }
    {
        match self.row {
            None => false,
            Some(row) => at == row.at && self.tok.is_same(tok) && wants.is_same(row.wants),
        }
    }

    /// Whether the path meets the row that is sought in this one.
    fn is_met(self, at: u32, tok: Tok, wants: Wants, point: Point<'_>) -> bool
        ensures { (a : maps.After) → IsTrue result ↔ MeetsRow self at
            (row (tok_of tok) (wants_of wants) a) point.entry }
    {
        if !point.rest.is_empty() {
            return false;
        }
        if !self.is_sought(at, tok, wants) {
            return false;
        }
        point.comes.is_refused(wants)
    }
}

impl<'a> Passing<'a> {
    /// Past a row.
    fn pass(&mut self, tok: Tok, wants: Wants, leaves: Leaves)
        ensures { IsTaken (row (tok_of tok) (wants_of wants) (leaves_of leaves)) self.old self.new }
    {
        if !self.hunt.tok.is_same(tok) {
            return;
        }
        let point = self.point;
        self.point = Point {
            comes: point.comes.wanted_by(wants).left_as(leaves),
            rest: point.rest,
            met: either(point.met, self.hunt.is_met(self.at, tok, wants, point)),
        };
    }
}

impl<'a> RowSink for Passing<'a> {
    ghost use Rattle.vlt_paths.specs.Taken.{IsTaken};

    ghost takes = { λ r v u. IsTaken r v u };

    ghost stops = { λ r v e. ⊥ };

    fn take(&mut self, row: Row) -> Result<(), RowError> {
        self.pass(row.tok, Wants::of(row.wanted), Leaves::of(row.after));
        Ok(())
    }

    fn take_wide(&mut self, row: WideRow) -> Result<(), RowError> {
        match row {
            WideRow::Wants { tok, states, after } => {
                self.pass(tok, Wants::In(Numbers::of(states)), Leaves::of(after));
            }
            WideRow::Leaves {
                tok,
                wanted,
                states,
            } => {
                self.pass(tok, Wants::of(wanted), Leaves::Set(Numbers::of(states)));
            }
        }
        Ok(())
    }
}

/// Past the rows of an expression. No row is refused, so the answers of these calls say nothing.
pub fn past_expr<'a>(
    p: &Program,
    f: &Func,
    hunt: Hunt,
    at: u32,
    e: &Expr,
    point: Point<'a>,
) -> Point<'a>
    ensures { IsPast hunt at (expr_rows (program_of p.now) (func_of f.now) (expr_of e.now))
        point.entry result }
{
    let mut passing = Passing { hunt, at, point };
    let _all = give_expr(p, f, e, &mut passing);
    passing.point
}

/// Past the rows of a statement without blocks that goes on to the next one.
pub fn past_form<'a>(
    p: &Program,
    f: &Func,
    hunt: Hunt,
    at: u32,
    form: &Form,
    point: Point<'a>,
) -> Point<'a>
    ensures { IsPast hunt at (own_rows (program_of p.now) (func_of f.now) (form_of form.now))
        point.entry result }
{
    let mut passing = Passing { hunt, at, point };
    let _all = give_form(p, f, form, &mut passing);
    passing.point
}

pub fn past_switch<'a>(f: &Func, hunt: Hunt, at: u32, v: VarId, point: Point<'a>) -> Point<'a>
    ensures { IsPast hunt at (switch_rows (func_of f.now) v.0) point.entry result }
{
    let mut passing = Passing { hunt, at, point };
    let _all = give_switch(f, v, &mut passing);
    passing.point
}

/// Past the rows of an arm, before its block.
pub fn past_arm<'a>(
    p: &Program,
    f: &Func,
    hunt: Hunt,
    at: u32,
    v: VarId,
    case: u8,
    vs: &[VarId],
    point: Point<'a>,
) -> Point<'a>
    ensures { IsPast hunt at
        (arm_rows (program_of p.now) (func_of f.now) v.0 case (vars_of vs.now)) point.entry result }
{
    let mut passing = Passing { hunt, at, point };
    let _all = give_arm(p, f, v, case, vs, &mut passing);
    passing.point
}

/// Past the rows of a focus, before its block.
pub fn past_focus<'a>(
    p: &Program,
    f: &Func,
    hunt: Hunt,
    at: u32,
    y: VarId,
    z: VarId,
    point: Point<'a>,
) -> Point<'a>
    ensures { IsPast hunt at (focus_rows (program_of p.now) (func_of f.now) y.0 z.0)
        point.entry result }
{
    let mut passing = Passing { hunt, at, point };
    let _all = give_focus(p, f, y, z, &mut passing);
    passing.point
}

pub fn past_focus_end<'a>(
    p: &Program,
    f: &Func,
    hunt: Hunt,
    at: u32,
    y: VarId,
    z: VarId,
    point: Point<'a>,
) -> Point<'a>
    ensures { IsPast hunt at (focus_end_rows (program_of p.now) (func_of f.now) y.0 z.0)
        point.entry result }
{
    let mut passing = Passing { hunt, at, point };
    let _all = give_focus_end(p, f, y, z, &mut passing);
    passing.point
}

/// Past rows that want these tokens away.
pub fn past_gone<'a>(hunt: Hunt, at: u32, toks: &[Tok], point: Point<'a>) -> Point<'a>
    ensures { IsPast hunt at (map away_row (toks_of toks.now)) point.entry result }
{
    let mut passing = Passing { hunt, at, point };
    let _all = give_gone(toks, &mut passing);
    passing.point
}

/// Past a row that wants the path's token away.
fn past_one<'a>(hunt: Hunt, at: u32, point: Point<'a>) -> Point<'a>
    ensures { IsPast hunt at (away_row (tok_of hunt.tok) ∷ []) point.entry result }
{
    let mut passing = Passing { hunt, at, point };
    passing.pass(hunt.tok, Wants::Absent, Leaves::Absent);
    passing.point
}

/// Whether the token is one of the function's.
fn is_of(tok: Tok, f: &Func) -> bool
    ensures { result ≡ list_any (is_tok (tok_of tok)) (tokens_of (func_of f.now)) }
{
    match tok {
        Tok::Key(k) => (k.0 as usize) < f.keys.len(),
        Tok::Var(v) => f.is_owning_var(v),
    }
}

/// Past the rows that want the function's tokens away: the one of the path's token, if it is among them.
fn past_own<'a>(f: &Func, hunt: Hunt, at: u32, point: Point<'a>) -> Point<'a>
    ensures { IsPast hunt at (map away_row (tokens_of (func_of f.now))) point.entry result }
{
    if is_of(hunt.tok, f) {
        past_one(hunt, at, point)
    } else {
        point
    }
}

/// Past the rows of a jump: `left` says whether the scopes that it leaves bind the token.
pub fn past_left<'a>(f: &Func, hunt: Hunt, left: bool, at: u32, point: Point<'a>) -> Point<'a>
    ensures { (ts : List core.Tok) → IsBound hunt ts left →
        IsPast hunt at (map away_row (in_order (func_of f.now) ts)) point.entry result }
{
    if !left {
        return point;
    }
    if is_of(hunt.tok, f) {
        past_one(hunt, at, point)
    } else {
        point
    }
}

fn past_handed_back<'a>(
    p: &Program,
    f: &Func,
    hunt: Hunt,
    at: u32,
    value: &Option<Operand>,
    point: Point<'a>,
) -> Point<'a>
    ensures { IsPast hunt at
        (handed_back_rows (program_of p.now)
        (instance (program_of p.now) (func_of f.now) hunt.origin)
        (option_map operand_of value.now))
        point.entry result }
{
    let mut passing = Passing { hunt, at, point };
    let _all = give_handed_back(p, f, hunt.origin, value, &mut passing);
    passing.point
}

/// Past the rows of a return.
pub fn past_return<'a>(
    p: &Program,
    f: &Func,
    hunt: Hunt,
    at: u32,
    value: &Option<Operand>,
    point: Point<'a>,
) -> Point<'a>
    ensures { IsPast hunt at
        (return_rows (program_of p.now)
        (instance (program_of p.now) (func_of f.now) hunt.origin)
        (option_map operand_of value.now))
        point.entry result }
{
    let following = past_handed_back(p, f, hunt, at, value, point);
    past_own(f, hunt, at, following)
}
