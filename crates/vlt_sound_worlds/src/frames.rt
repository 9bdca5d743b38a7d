//! Laws on running functions.

ghost use Rattle.std.specs.Prelude.{◌≡◌, List, []};
ghost use Rattle.vlt_core.specs.Core.{Expr, Func, Program};
ghost use Rattle.vlt_core.specs.Maps.{HeldMap, CanPass};
ghost use Rattle.vlt_core.specs.Rows.{expr_rows};
ghost use Rattle.vlt_core.specs.KindedScopes.{Ids};
ghost use Rattle.vlt_core.specs.KindedOperands.{type_of_expr, expr_broken};
ghost use Rattle.vlt_meaning.specs.World.{Object, Frame};
ghost use Rattle.vlt_meaning.specs.Values.{value_of};
ghost use Rattle.vlt_sound_worlds.specs.Agrees.{Handed, Context, scene, Agrees};
ghost use Rattle.vlt_sound_worlds.specs.Typed.{IsTyped};
ghost use Rattle.vlt_sound_worlds.specs.Fine.{IsFine};

/// Where the held map passes its rows, an expression gives a value that fits its type, or a trap, but never a fault.
pub fn expressions_are_fine()
    ensures { (p : Program) (f : Func) (c : Context) (h : HeldMap) (ids : Ids)
        (hand : List Handed) (frame : Frame) (os : List Object)
        (a : Agrees p f c h ids hand frame os) (e : Expr) → IsTyped p f →
        expr_broken p f ids e ≡ [] → CanPass (expr_rows p f e) h →
        IsFine p (scene c os a.heads) frame.keys (type_of_expr p f e)
        (value_of p f e frame os) }
{}
