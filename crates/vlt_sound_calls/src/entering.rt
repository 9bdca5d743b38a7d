//! Laws on calls.

ghost use Rattle.std.specs.Prelude.{◌≡◌, ℕ, List, [], Ok};
ghost use Rattle.vlt_core.specs.Core.{Func, Program};
ghost use Rattle.vlt_core.specs.Maps.{HeldMap};
ghost use Rattle.vlt_core.specs.Derives.{start_map};
ghost use Rattle.vlt_core.specs.KindedScopes.{Ids};
ghost use Rattle.vlt_core.specs.KindedBodies.{first_ids};
ghost use Rattle.vlt_meaning.specs.World.{Value, Object, Frame};
ghost use Rattle.vlt_meaning.specs.Calls.{passed_objects, handed_over, callee_frame};
ghost use Rattle.vlt_sound_worlds.specs.Agrees.{Context, Agrees};
ghost use Rattle.vlt_sound_worlds.specs.Scoped.{IsScoped};
ghost use Rattle.vlt_sound_calls.specs.Returned.{IsEntered};
ghost use Rattle.vlt_sound_calls.specs.Callee.{callee_context};
ghost use Rattle.vlt_sound_calls.specs.Ready.{IsReady};

/// Where arguments were handed over and the held map passes the rows of the callee's clause, the callee gets the objects of
/// the clause, and what its start map and its parameters say is so.
pub fn callees_begin()
    ensures passed { (p : Program) (f : Func) (c : Context) (h : HeldMap) (ids : Ids)
        (frame : Frame) (os : List Object) (g : Func) (keys : List ℕ) (values : List Value) →
        IsReady p f c h ids frame os g keys values → (ns : List ℕ) ×
        (passed_objects p g keys frame os g.clause ≡ Ok ns) }
    ensures agrees { (p : Program) (f : Func) (c : Context) (h : HeldMap) (ids : Ids)
        (frame : Frame) (os : List Object) (g : Func) (keys : List ℕ) (values : List Value) →
        IsReady p f c h ids frame os g keys values →
        Agrees p g (callee_context f h ids frame c g keys) (start_map p g) (first_ids p g) []
        (callee_frame g keys values frame) (handed_over keys frame g.clause os) }
    ensures context { (p : Program) (f : Func) (c : Context) (h : HeldMap) (ids : Ids)
        (frame : Frame) (os : List Object) (g : Func) (keys : List ℕ) (values : List Value) →
        IsReady p f c h ids frame os g keys values →
        IsEntered p g (callee_context f h ids frame c g keys) }
    ensures scope { (p : Program) (f : Func) (c : Context) (h : HeldMap) (ids : Ids)
        (frame : Frame) (os : List Object) (g : Func) (keys : List ℕ) (values : List Value) →
        IsReady p f c h ids frame os g keys values →
        IsScoped g (callee_context f h ids frame c g keys) (first_ids p g) }
{}
