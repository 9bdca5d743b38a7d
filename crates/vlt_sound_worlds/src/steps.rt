//! Laws on statements without blocks.

ghost use Rattle.std.specs.Prelude.{◌≡◌, ℕ, Bool, true, List, map};
ghost use Rattle.vlt_core.specs.Core.{States, Tok, Func, Program, Expr, set, print, put, own, move, pack, adopt};
ghost use Rattle.vlt_core.specs.Core as core;
ghost use Rattle.vlt_core.specs.Maps.{HeldMap, CanPass, away_row};
ghost use Rattle.vlt_core.specs.KindedScopes.{Ids};
ghost use Rattle.vlt_meaning.specs.World.{World, Frame};
ghost use Rattle.vlt_meaning.specs.Step.{are_unused};
ghost use Rattle.vlt_sound_worlds.specs.Agrees.{Handed, Context, Agrees};
ghost use Rattle.vlt_sound_worlds.specs.Steps.{IsSafeStep};
ghost use Rattle.vlt_sound_worlds.specs.Scopes.{AreOwning};

/// Statements that take and give no object are safe.
pub fn plain_steps_are_safe()
    ensures print { (e : Expr) → IsSafeStep (print e) }
    ensures input { (v : ℕ) (more : Bool) → IsSafeStep (core.input v more) }
    ensures set { (v : ℕ) (e : Expr) → IsSafeStep (set v e) }
    ensures put { (x i : ℕ) (e : Expr) → IsSafeStep (put x i e) }
{}

/// Filling an owning variable is safe, from another one and with the object of a reference, and so is adoption.
pub fn owning_steps_are_safe()
    ensures moved { (v u : ℕ) → IsSafeStep (own v (move u)) }
    ensures packed { (v x : ℕ) (states : States) → IsSafeStep (own v (pack x states)) }
    ensures adopted { (y x r : ℕ) → IsSafeStep (adopt y x r) }
{}

/// Where the held map passes the rows of what a block bound, nothing is left behind under it.
pub fn blocks_leave_nothing_behind()
    ensures { (p : Program) (f : Func) (c : Context) (h : HeldMap) (ids : Ids)
        (hand : List Handed) (frame : Frame) (w : World) (bound : List Tok) →
        Agrees p f c h ids hand frame w.objects → AreOwning f bound →
        CanPass (map away_row bound) h → are_unused bound frame w ≡ true }
{}
