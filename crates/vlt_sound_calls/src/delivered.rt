//! A law on results of calls.

ghost use Rattle.std.specs.Prelude.{◌≡◌, ℕ, List, [], Option, Some};
ghost use Rattle.vlt_core.specs.Core.{Func, Program};
ghost use Rattle.vlt_core.specs.Maps.{HeldMap, CanPass, map_after};
ghost use Rattle.vlt_core.specs.Rows.{target_rows};
ghost use Rattle.vlt_core.specs.KindedScopes.{Ids};
ghost use Rattle.vlt_core.specs.KindedCalls.{call_target_broken, with_call_target};
ghost use Rattle.vlt_meaning.specs.World.{Value, Frame, World};
ghost use Rattle.vlt_meaning.specs.Step as step;
ghost use Rattle.vlt_sound_worlds.specs.Agrees.{Context};
ghost use Rattle.vlt_sound_worlds.specs.Typed.{IsTyped};
ghost use Rattle.vlt_sound_worlds.specs.Safe.{Safe, goes_to};
ghost use Rattle.vlt_sound_calls.specs.Heads.{HasHead};
ghost use Rattle.vlt_sound_calls.specs.Callee.{IsCall};
ghost use Rattle.vlt_sound_calls.specs.ReturnGiven.{IsGiven};

/// What a call gives goes to its target without a fault, where the call breaks no rule and the held map passes the target's rows.
pub fn results_are_delivered()
    ensures { (p : Program) (f g : Func) (c : Context) (h : HeldMap) (ids : Ids) (frame : Frame)
        (w : World) (keys : List ℕ) (a : Option Value) (target : Option ℕ) → IsTyped p f →
        HasHead p g → IsCall p f g ids keys → call_target_broken f ids g keys target ≡ [] →
        CanPass (target_rows f target) h → IsGiven p f c h ids frame w.objects keys g.result a →
        Safe (goes_to p f c (map_after (target_rows f target) h)
        (with_call_target f (Some g) target ids) []) (step.deliver f target a frame w) }
{}
