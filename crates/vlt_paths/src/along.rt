//! Along one path through the parts of a body.

ghost use Rattle.std.specs.Prelude.{◌≡◌, ◌||◌, true, ◌<◌, ℕ, List, [], length, slice_get};
ghost use Rattle.std.specs.List.{list_any};
ghost use Rattle.std.specs.Option.{option_copied};
ghost use Rattle.vlt_core.specs.Core as core;
ghost use Rattle.vlt_core.specs.Flow.{loop, jump};
ghost use Rattle.vlt_core.specs.Bodies.{flow_of, flow_of_block, flow_of_stmts};
ghost use Rattle.vlt_core.specs.Maps.{is_tok};
ghost use Rattle.vlt_core.specs.Rows.{expr_rows, in_order};
ghost use Rattle.vlt_core.specs.Instances.{instance};
ghost use Rattle.vlt_core.specs.View.{program_of, func_of, tok_of, expr_of, form_of, block_of, stmts_of, arms_of};
ghost use Rattle.vlt_core.specs.HeldView.{toks_of};
ghost use Rattle.vlt_core.specs.FaultView.{choices_of};
ghost use Rattle.vlt_paths.specs.declared.along.Out.TheVariants.{Continue};
ghost use Rattle.vlt_paths.specs.Along.{state_of, IsBound, AlongForm, AlongBlock, AlongStmts, AlongTurn, exit_of, exit_of_turn, is_step, jump_out};
ghost use Rattle.vlt_paths.specs.Legs.{Led, Onward, IsNext};

use crate::passing::{
    past_arm, past_expr, past_focus, past_focus_end, past_form, past_gone, past_left, past_return,
    past_switch,
};
use crate::point::{Hunt, Point};
use vlt_base::VarId;
use vlt_core::{Arm, Block, Expr, Form, Func, Pick, Program, Stmt, Tok};

/// Where a path comes out of a part.
#[derive(Clone, Copy, Debug, PartialEq, Eq)]
pub enum Out {
    Next,
    Break,
    Continue,
    /// It ends in the part, or its next choice is none of what stands there.
    Nowhere,
}

/// A path after a part.
#[derive(Clone, Copy)]
pub struct Went<'a> {
    pub out: Out,
    pub point: Point<'a>,
}

impl<'a> Went<'a> {
    /// The path at the next statement, if it comes there.
    fn next(self) -> Point<'a>
        ensures { IsNext self.entry result }
    {
        match self.out {
            Out::Next => self.point,
            _ => self.point.nowhere(),
        }
    }
}

/// Whether the token is among these.
fn is_among(tok: Tok, toks: &[Tok]) -> bool
    ensures { result ≡ list_any (is_tok (tok_of tok)) (toks_of toks.now) }
{
    for t in toks {
        if tok.is_same(*t) {
            return true;
        }
    }
    false
}

/// Whether these tokens, or the blocks around, have the path's token.
pub fn is_bound(hunt: Hunt, left: bool, bound: &[Tok]) -> bool
    ensures { result ≡ (left || list_any (is_tok (tok_of hunt.tok)) (toks_of bound.now)) }
{
    if left {
        true
    } else {
        is_among(hunt.tok, bound)
    }
}

/// Through a statement at this place. `left` says whether the blocks around bind the token, as far as the loop around.
#[cycle(along)]
pub fn go_form<'a>(
    p: &Program,
    f: &Func,
    hunt: Hunt,
    left: bool,
    form: &Form,
    at: u32,
    point: Point<'a>,
) -> Went<'a>
    ensures { (ts : List core.Tok) → IsBound hunt ts left →
        AlongForm hunt (flow_of (program_of p.now)
        (instance (program_of p.now) (func_of f.now) hunt.origin) ts
        (form_of form.now)) at point.entry result }
{
    match form {
        Form::If {
            cond,
            then_block,
            else_block,
        } => {
            let following = past_expr(p, f, hunt, at, cond, point);
            match following.choose(at) {
                None => Went {
                    out: Out::Nowhere,
                    point: following,
                },
                Some(chosen) => match chosen.pick {
                    Pick::Then => go_block(p, f, hunt, left, then_block, chosen.point),
                    Pick::Else => go_block(p, f, hunt, left, else_block, chosen.point),
                    _ => Went {
                        out: Out::Nowhere,
                        point: following,
                    },
                },
            }
        }
        Form::While { cond, body } => go_while(p, f, hunt, body, cond, at, point),
        Form::Switch { v, arms, .. } => {
            go_switch(p, f, hunt, left, *v, arms.as_slice(), at, point)
        }
        Form::Focus { y, z, body } => go_focus(p, f, hunt, left, *y, *z, body, at, point),
        Form::Scope { body } => go_block(p, f, hunt, left, body, point),
        Form::Return { value } => Went {
            out: Out::Nowhere,
            point: past_return(p, f, hunt, at, value, point),
        },
        Form::Jump { continues } => go_jump(f, hunt, left, *continues, at, point),
        _ => go_step(p, f, hunt, form, at, point),
    }
}

/// A statement without blocks that goes on to the next one.
fn go_step<'a>(
    p: &Program,
    f: &Func,
    hunt: Hunt,
    form: &Form,
    at: u32,
    point: Point<'a>,
) -> Went<'a>
    requires { is_step (form_of form.now) ≡ true }
    ensures { (ts : List core.Tok) → AlongForm hunt
        (flow_of (program_of p.now)
        (instance (program_of p.now) (func_of f.now) hunt.origin) ts
        (form_of form.now)) at point.entry result }
{
    Went {
        out: Out::Next,
        point: past_form(p, f, hunt, at, form, point),
    }
}

fn jump_out(continues: bool) -> Out
    ensures { result ≡ jump_out continues }
{
    if continues { Out::Continue } else { Out::Break }
}

/// A jump, past the tokens of the scopes that it leaves.
fn go_jump<'a>(
    f: &Func,
    hunt: Hunt,
    left: bool,
    continues: bool,
    at: u32,
    point: Point<'a>,
) -> Went<'a>
    ensures { (ts : List core.Tok) → IsBound hunt ts left →
        AlongForm hunt (jump continues (in_order (func_of f.now) ts)) at point.entry result }
{
    Went {
        out: jump_out(continues),
        point: past_left(f, hunt, left, at, point),
    }
}

/// One turn: at the head again with `Continue`, out of the loop with `Next`.
#[cycle(along)]
pub fn go_turn<'a>(
    p: &Program,
    f: &Func,
    hunt: Hunt,
    body: &Block,
    cond: &Expr,
    at: u32,
    point: Point<'a>,
) -> Went<'a>
    ensures along { AlongTurn hunt (expr_rows (program_of p.now) (func_of f.now) (expr_of cond.now))
        (flow_of_block (program_of p.now)
        (instance (program_of p.now) (func_of f.now) hunt.origin) []
        (block_of body.now)) at point.entry result }
    ensures fewer { result.out ≡ Continue →
        length (choices_of result.point.rest.now) < length (choices_of point.entry.rest.now) }
{
    let following = past_expr(p, f, hunt, at, cond, point);
    match following.choose(at) {
        None => Went {
            out: Out::Nowhere,
            point: following,
        },
        Some(chosen) => match chosen.pick {
            Pick::Exit => Went {
                out: Out::Next,
                point: chosen.point,
            },
            Pick::Turn => turned(go_block(p, f, hunt, false, body, chosen.point)),
            _ => Went {
                out: Out::Nowhere,
                point: following,
            },
        },
    }
}

/// What the end of a loop's body is to the loop.
fn turned<'a>(end: Went<'a>) -> Went<'a>
    ensures out { exit_of result.out ≡ exit_of_turn (exit_of end.entry.out) }
    ensures point { result.point ≡ end.entry.point }
{
    match end.out {
        Out::Next => Went {
            out: Out::Continue,
            point: end.point,
        },
        Out::Continue => Went {
            out: Out::Continue,
            point: end.point,
        },
        Out::Break => Went {
            out: Out::Next,
            point: end.point,
        },
        Out::Nowhere => Went {
            out: Out::Nowhere,
            point: end.point,
        },
    }
}

/// Each turn makes a choice, so there are no more turns than choices.
#[cycle(along)]
fn go_while<'a>(
    p: &Program,
    f: &Func,
    hunt: Hunt,
    body: &Block,
    cond: &Expr,
    at: u32,
    point: Point<'a>,
) -> Went<'a>
    ensures { AlongForm hunt (loop (expr_rows (program_of p.now) (func_of f.now) (expr_of cond.now))
        (flow_of_block (program_of p.now)
        (instance (program_of p.now) (func_of f.now) hunt.origin) []
        (block_of body.now))) at point.entry result }
{
    let mut head = point;
    loop {
        let turn = go_turn(p, f, hunt, body, cond, at, head);
        match turn.out {
            Out::Continue => head = turn.point,
            _ => return turn,
        }
    }
}

pub fn arm_at(arms: &[Arm], position: u8) -> Option<&Arm>
    ensures { option_copied result ≡ slice_get arms.now position }
{
    arms.get(position as usize)
}

#[cycle(along)]
fn go_switch<'a>(
    p: &Program,
    f: &Func,
    hunt: Hunt,
    left: bool,
    v: VarId,
    arms: &[Arm],
    at: u32,
    point: Point<'a>,
) -> Went<'a>
    ensures { (end : ℕ) (ts : List core.Tok) → IsBound hunt ts left →
        AlongForm hunt (flow_of (program_of p.now)
        (instance (program_of p.now) (func_of f.now) hunt.origin) ts
        (core.switch v.0 (arms_of arms.now) end)) at point.entry result }
{
    let following = past_switch(f, hunt, at, v, point);
    match following.choose(at) {
        None => Went {
            out: Out::Nowhere,
            point: following,
        },
        Some(chosen) => match chosen.pick {
            Pick::Case(position) => match arm_at(arms, position) {
                None => Went {
                    out: Out::Nowhere,
                    point: following,
                },
                Some(arm) => {
                    let inside = past_arm(
                        p,
                        f,
                        hunt,
                        at,
                        v,
                        arm.case,
                        arm.vars.as_slice(),
                        chosen.point,
                    );
                    go_block(p, f, hunt, left, &arm.body, inside)
                }
            },
            _ => Went {
                out: Out::Nowhere,
                point: following,
            },
        },
    }
}

/// No jump leads out of a focus.
#[cycle(along)]
fn go_focus<'a>(
    p: &Program,
    f: &Func,
    hunt: Hunt,
    left: bool,
    y: VarId,
    z: VarId,
    body: &Block,
    at: u32,
    point: Point<'a>,
) -> Went<'a>
    ensures { (ts : List core.Tok) → IsBound hunt ts left →
        AlongForm hunt (flow_of (program_of p.now)
        (instance (program_of p.now) (func_of f.now) hunt.origin) ts
        (core.focus y.0 z.0 (block_of body.now))) at point.entry result }
{
    let inside = past_focus(p, f, hunt, at, y, z, point);
    let end = go_block(p, f, hunt, left, body, inside);
    match end.out {
        Out::Next => Went {
            out: Out::Next,
            point: past_focus_end(p, f, hunt, body.end, y, z, end.point),
        },
        _ => Went {
            out: Out::Nowhere,
            point: end.point,
        },
    }
}

#[cycle(along)]
pub fn go_block<'a>(
    p: &Program,
    f: &Func,
    hunt: Hunt,
    left: bool,
    block: &Block,
    point: Point<'a>,
) -> Went<'a>
    ensures { (ts : List core.Tok) → IsBound hunt ts left →
        AlongBlock hunt (flow_of_block (program_of p.now)
        (instance (program_of p.now) (func_of f.now) hunt.origin) ts
        (block_of block.now)) point.entry result }
{
    let inside = is_bound(hunt, left, block.bound.as_slice());
    let end = go_stmts(p, f, hunt, inside, block.stmts.as_slice(), point);
    match end.out {
        Out::Next => Went {
            out: Out::Next,
            point: past_gone(hunt, block.end, block.bound.as_slice(), end.point),
        },
        _ => end,
    }
}

#[cycle(along)]
pub fn go_stmts<'a>(
    p: &Program,
    f: &Func,
    hunt: Hunt,
    left: bool,
    stmts: &[Stmt],
    point: Point<'a>,
) -> Went<'a>
    ensures { (ts : List core.Tok) → IsBound hunt ts left →
        AlongStmts hunt (flow_of_stmts (program_of p.now)
        (instance (program_of p.now) (func_of f.now) hunt.origin) ts
        (stmts_of stmts.now)) point.entry result }
{
    let mut here = point;
    for s in stmts {
        let following = go_form(p, f, hunt, left, &s.form, s.at, here);
        match following.out {
            Out::Next => here = following.point,
            _ => return following,
        }
    }
    Went {
        out: Out::Next,
        point: here,
    }
}

/// Following a statement, at the next one.
pub fn go_on<'a>(
    p: &Program,
    f: &Func,
    hunt: Hunt,
    left: bool,
    form: &Form,
    at: u32,
    point: Point<'a>,
) -> Point<'a>
    ensures { (ts : List core.Tok) → IsBound hunt ts left → Led (Onward (tok_of hunt.tok) at
        (flow_of (program_of p.now)
        (instance (program_of p.now) (func_of f.now) hunt.origin) ts (form_of form.now)))
        (state_of point.entry) (state_of result) }
{
    go_form(p, f, hunt, left, form, at, point).next()
}
