//! A law on numbers and new objects that answers give.

ghost use Rattle.std.specs.Prelude.{◌≡◌, ◌⊎◌, ℕ, ℤ, IsTrue, List, [], Option, Some};
ghost use Rattle.vlt_core.specs.Core.{States, Ty, int, owning, Func, Program};
ghost use Rattle.vlt_core.specs.Core as core;
ghost use Rattle.vlt_core.specs.Lookups.{fields_of, all_states};
ghost use Rattle.vlt_core.specs.Maps.{HeldMap};
ghost use Rattle.vlt_core.specs.KindedScopes.{Ids};
ghost use Rattle.vlt_meaning.specs.World.{Value, Frame, World};
ghost use Rattle.vlt_meaning.specs.Step.{Step};
ghost use Rattle.vlt_meaning.specs.HostAnswers.{plain, new_in, piece};
ghost use Rattle.vlt_meaning.specs.Externals.{with_result};
ghost use Rattle.vlt_sound_worlds.specs.Agrees.{Context, Agrees};
ghost use Rattle.vlt_sound_worlds.specs.Safe.{Safe, goes_to};
ghost use Rattle.vlt_sound_calls.specs.ReturnGiven.{IsGiven};

/// Where an answer gives a number or a new object for a result, what comes after has a value of the result's type.
pub fn pieces_are_given()
    ensures number { (p : Program) (f g : Func) (c : Context) (h : HeldMap) (ids : Ids)
        (frame : Frame) (w : World) (keys states : List ℕ) (heap : ℕ) (following : HeldMap)
        (wider : Ids) (go : Option Value → Frame → World → Step) (ty : Ty) (z : ℤ) →
        Agrees p f c h ids [] frame w.objects → (ty ≡ int) ⊎ (ty ≡ core.bool) →
        ((v : Value) (w2 : World) → IsGiven p f c h ids frame w2.objects keys (Some ty)
        (Some v) → Safe (goes_to p f c following wider []) (go (Some v) frame w2)) →
        Safe (goes_to p f c following wider [])
        (with_result heap p g keys states (piece (plain z)) frame w go) }
    ensures new { (p : Program) (f g : Func) (c : Context) (h : HeldMap) (ids : Ids)
        (frame : Frame) (w : World) (keys states : List ℕ) (heap : ℕ) (following : HeldMap)
        (wider : Ids) (go : Option Value → Frame → World →
        Step) (S : States) (t : ℕ) (args : List ℕ) (s : ℕ) →
        Agrees p f c h ids [] frame w.objects → g.result ≡ Some (owning S t args) →
        IsTrue (S s) → IsTrue (all_states p t s) → fields_of p t ≡ [] →
        ((v : Value) (w2 : World) → IsGiven p f c h ids frame w2.objects keys
        (Some (owning S t args)) (Some v) → Safe (goes_to p f c following wider [])
        (go (Some v) frame w2)) → Safe (goes_to p f c following wider [])
        (with_result heap p g keys states (piece (new_in s)) frame w go) }
{}
