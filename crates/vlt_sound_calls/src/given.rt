//! Laws on keys that an external gives back.

ghost use Rattle.std.specs.Prelude.{◌≡◌, ℕ, List, Ok};
ghost use Rattle.vlt_core.specs.Core.{Entry, Func, Program};
ghost use Rattle.vlt_core.specs.Maps.{HeldMap};
ghost use Rattle.vlt_core.specs.KindedScopes.{Ids};
ghost use Rattle.vlt_meaning.specs.World.{Object, Frame};
ghost use Rattle.vlt_meaning.specs.Externals.{come_back};
ghost use Rattle.vlt_sound_worlds.specs.Agrees.{Handed, Context, Agrees};
ghost use Rattle.vlt_sound_worlds.specs.Typed.{IsTyped};
ghost use Rattle.vlt_sound_worlds.specs.Scoped.{IsScoped};
ghost use Rattle.vlt_sound_calls.specs.Returned.{IsEntered};
ghost use Rattle.vlt_sound_calls.specs.Given.{came, AreGivable};

/// Where the objects of keys that are given come back, the caller holds each under the key that names it, in some state.
pub fn given_keys_have_what_they_name()
    ensures { (p : Program) (f : Func) (c : Context) (h : HeldMap) (ids : Ids)
        (hand : List Handed) (frame : Frame) (os back : List Object) (keys : List ℕ)
        (es : List Entry) → IsTyped p f → IsEntered p f c → IsScoped f c ids →
        Agrees p f c h ids hand frame os → AreGivable ids keys es h →
        come_back keys frame es os ≡ Ok back →
        Agrees p f c (came keys es h) ids hand frame back }
{}
