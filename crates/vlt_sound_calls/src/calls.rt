//! Laws on the contexts of functions that were called.

ghost use Rattle.std.specs.Prelude.{◌≡◌, ℕ, List, ◌∷◌, Option};
ghost use Rattle.vlt_core.specs.Core.{Func, Program};
ghost use Rattle.vlt_meaning.specs.World.{Value, World};
ghost use Rattle.vlt_sound_worlds.specs.Scene.{Focus};
ghost use Rattle.vlt_sound_worlds.specs.Agrees.{Pin, Context};
ghost use Rattle.vlt_sound_calls.specs.Returned.{IsEntered, Returned};

/// What is known of a context from the call stays so whatever foci are open and whatever keys are pinned.
pub fn foci_change_no_head()
    ensures { (p : Program) (f : Func) (c : Context) (foci : List Focus) (pins : List Pin) →
        IsEntered p f c → IsEntered p f (record c { foci = foci; pins = pins }) }
{}

/// No function returns while a focus of its own is open.
pub fn no_focus_is_open_at_a_return()
    ensures { (p : Program) (f : Func) (c : Context) (a : Option Value) (given : List ℕ)
        (w : World) (q : Focus) (rest : List Focus) → c.foci ≡ q ∷ rest → q.depth ≡ c.depth →
        Returned p f c a given w → ⊥ }
{}
