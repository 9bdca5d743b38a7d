//! Laws on what comes back from a call.

ghost use Rattle.std.specs.Prelude.{◌≡◌, ℕ, List, [], Option, Some};
ghost use Rattle.vlt_core.specs.Core.{Func, Program};
ghost use Rattle.vlt_core.specs.Maps.{HeldMap, CanPass, map_after};
ghost use Rattle.vlt_core.specs.Rows.{clause_rows, target_rows};
ghost use Rattle.vlt_core.specs.KindedScopes.{Ids};
ghost use Rattle.vlt_core.specs.KindedCalls.{call_target_broken, with_call_target};
ghost use Rattle.vlt_meaning.specs.World.{Value, World, Frame};
ghost use Rattle.vlt_meaning.specs.Step.{leaves};
ghost use Rattle.vlt_meaning.specs.Calls.{back_in};
ghost use Rattle.vlt_sound_worlds.specs.Agrees.{Handed, Context};
ghost use Rattle.vlt_sound_worlds.specs.Safe.{Safe, goes_to};
ghost use Rattle.vlt_sound_calls.specs.Returned.{Returned};
ghost use Rattle.vlt_sound_calls.specs.Callee.{callee_context};
ghost use Rattle.vlt_sound_calls.specs.Waits.{IsCaller};

/// Where a callee has left, its caller has the objects of the clause back under its own keys, a new one under a new key, and
/// the result in the target, where it fits.
pub fn callers_go_on()
    ensures { (p : Program) (f : Func) (c : Context) (h : HeldMap) (ids : Ids)
        (hand : List Handed) (frame : Frame) (w : World) (g : Func) (keys : List ℕ)
        (target : Option ℕ) (a : Option Value) (given : List ℕ) (w' : World) →
        IsCaller p f c h ids hand frame w.objects g keys →
        call_target_broken f ids g keys target ≡ [] →
        CanPass (target_rows f target) (map_after (clause_rows p f keys g.clause) h) →
        Returned p g (callee_context f h ids frame c g keys) a given w' →
        Safe (goes_to p f c (map_after (target_rows f target)
        (map_after (clause_rows p f keys g.clause) h)) (with_call_target f (Some g) target ids) [])
        (back_in f target keys g frame (leaves a given w')) }
{}
