//! A law on the states that an answer gives.

ghost use Rattle.std.specs.Prelude.{ℕ, List};
ghost use Rattle.vlt_core.specs.Core.{Entry, Func, Program};
ghost use Rattle.vlt_core.specs.Maps.{HeldMap};
ghost use Rattle.vlt_core.specs.KindedScopes.{Ids};
ghost use Rattle.vlt_meaning.specs.World.{Object, Frame};
ghost use Rattle.vlt_meaning.specs.Externals.{entry_states, with_states};
ghost use Rattle.vlt_sound_worlds.specs.Agrees.{Handed, Context, Agrees};
ghost use Rattle.vlt_sound_worlds.specs.Said.{GoTogether, IsAfter};
ghost use Rattle.vlt_sound_calls.specs.Told.{map_after_telling, AreTellable};

/// Where an answer gives the objects of keys that are held other states of the clause, the held map says those after it.
pub fn answered_states_are_told()
    ensures { (p : Program) (f g : Func) (c : Context) (h : HeldMap) (ids : Ids)
        (hand : List Handed) (frame : Frame) (os : List Object) (keys : List ℕ)
        (es : List Entry) (states : List ℕ) → Agrees p f c h ids hand frame os →
        AreTellable p f g keys es h → GoTogether (IsAfter p g) es states →
        Agrees p f c (map_after_telling p f keys es h) ids hand frame
        (with_states (entry_states keys frame es states) os) }
{}
