//! Two paths, side by side.

ghost use Rattle.std.specs.Prelude.{◌≡◌, ◌↔◌, List, IsTrue};
ghost use Rattle.vlt_core.specs.Core as core;
ghost use Rattle.vlt_core.specs.Bodies.{flow_of};
ghost use Rattle.vlt_core.specs.Rows.{expr_rows, arm_rows};
ghost use Rattle.vlt_core.specs.Witness as w;
ghost use Rattle.vlt_core.specs.Instances.{instance};
ghost use Rattle.vlt_core.specs.View.{program_of, func_of, tok_of, expr_of, form_of, vars_of};
ghost use Rattle.vlt_core.specs.FaultView.{pick_of};
ghost use Rattle.vlt_rows.specs.Pieces.{switch_rows, focus_rows};
ghost use Rattle.vlt_paths.specs.Along.{IsBound};
ghost use Rattle.vlt_paths.specs.Legs.{Past, Takes, Onward};
ghost use Rattle.vlt_paths.specs.Pairs.{AreLed, AreAt, two_of};

use crate::along::go_on;
use crate::passing::{past_arm, past_expr, past_focus, past_switch};
use crate::point::{Hunt, Point};
use vlt_base::VarId;
use vlt_core::{Arm, Expr, Form, Func, Pick, Program};

/// Two paths on their way to a join at a place.
#[derive(Clone, Copy)]
pub struct Pair<'a> {
    pub place: u32,
    pub first: Point<'a>,
    pub second: Point<'a>,
}

impl<'a> Pair<'a> {
    /// Whether both are at a join at this place, the first without the token and the second with it.
    pub fn is_join(self, at: u32) -> bool
        ensures { IsTrue result ↔ AreAt at (two_of self.entry) }
    {
        at == self.place
            && self.first.rest.is_empty()
            && self.second.rest.is_empty()
            && self.first.comes.is_absent()
            && self.second.comes.is_present()
    }

    /// Following this choice.
    pub fn take(self, at: u32, pick: Pick) -> Pair<'a>
        ensures { AreLed (Takes (w.choice at (pick_of pick))) (two_of self.entry) (two_of result) }
    {
        Pair {
            place: self.place,
            first: self.first.take(at, pick),
            second: self.second.take(at, pick),
        }
    }

    /// Past the rows of an expression.
    pub fn past_expr(self, p: &Program, f: &Func, hunt: Hunt, at: u32, e: &Expr) -> Pair<'a>
        ensures { AreLed (Past (tok_of hunt.tok)
            (expr_rows (program_of p.now) (func_of f.now) (expr_of e.now)))
            (two_of self.entry) (two_of result) }
    {
        Pair {
            place: self.place,
            first: past_expr(p, f, hunt, at, e, self.first),
            second: past_expr(p, f, hunt, at, e, self.second),
        }
    }

    pub fn past_switch(self, f: &Func, hunt: Hunt, at: u32, v: VarId) -> Pair<'a>
        ensures { AreLed (Past (tok_of hunt.tok) (switch_rows (func_of f.now) v.0))
            (two_of self.entry) (two_of result) }
    {
        Pair {
            place: self.place,
            first: past_switch(f, hunt, at, v, self.first),
            second: past_switch(f, hunt, at, v, self.second),
        }
    }

    /// Past the rows of an arm, before its block.
    pub fn past_arm(
        self,
        p: &Program,
        f: &Func,
        hunt: Hunt,
        at: u32,
        v: VarId,
        case: u8,
        vs: &[VarId],
    ) -> Pair<'a>
        ensures { AreLed (Past (tok_of hunt.tok)
            (arm_rows (program_of p.now) (func_of f.now) v.0 case (vars_of vs.now)))
            (two_of self.entry) (two_of result) }
    {
        Pair {
            place: self.place,
            first: past_arm(p, f, hunt, at, v, case, vs, self.first),
            second: past_arm(p, f, hunt, at, v, case, vs, self.second),
        }
    }

    /// Past the rows of a focus, before its block.
    pub fn past_focus(
        self,
        p: &Program,
        f: &Func,
        hunt: Hunt,
        at: u32,
        y: VarId,
        z: VarId,
    ) -> Pair<'a>
        ensures { AreLed (Past (tok_of hunt.tok)
            (focus_rows (program_of p.now) (func_of f.now) y.0 z.0))
            (two_of self.entry) (two_of result) }
    {
        Pair {
            place: self.place,
            first: past_focus(p, f, hunt, at, y, z, self.first),
            second: past_focus(p, f, hunt, at, y, z, self.second),
        }
    }

    /// Following a statement, at the next one.
    pub fn go_on(
        self,
        p: &Program,
        f: &Func,
        hunt: Hunt,
        left: bool,
        form: &Form,
        at: u32,
    ) -> Pair<'a>
        ensures { (ts : List core.Tok) → IsBound hunt ts left →
            AreLed (Onward (tok_of hunt.tok) at
            (flow_of (program_of p.now)
            (instance (program_of p.now) (func_of f.now) hunt.origin) ts (form_of form.now)))
            (two_of self.entry) (two_of result) }
    {
        Pair {
            place: self.place,
            first: go_on(p, f, hunt, left, form, at, self.first),
            second: go_on(p, f, hunt, left, form, at, self.second),
        }
    }
}
