//! Laws on results of externals.

ghost use Rattle.std.specs.Prelude.{◌≡◌, ℕ, IsTrue, List, [], Option, Some};
ghost use Rattle.std.specs.List.{zip};
ghost use Rattle.vlt_core.specs.Core.{States, Ty, Tok, tracked, a_key, CaseDecl, Func, Program};
ghost use Rattle.vlt_core.specs.Lookups.{key_type, variant_in, case_at, fields_of, all_states};
ghost use Rattle.vlt_core.specs.Types.{stands_for};
ghost use Rattle.vlt_core.specs.Maps.{absent, held, HeldMap};
ghost use Rattle.vlt_core.specs.KindedScopes.{Ids};
ghost use Rattle.vlt_meaning.specs.World.{Value, Object, Frame, World};
ghost use Rattle.vlt_meaning.specs.Step.{Step};
ghost use Rattle.vlt_meaning.specs.Calls.{binding};
ghost use Rattle.vlt_meaning.specs.HostAnswers.{Piece, case_with};
ghost use Rattle.vlt_meaning.specs.Externals.{case_objects, with_states, with_fresh, with_result};
ghost use Rattle.vlt_sound_worlds.specs.Agrees.{Context, Agrees};
ghost use Rattle.vlt_sound_worlds.specs.Safe.{Safe, goes_to};
ghost use Rattle.vlt_sound_worlds.specs.Members.{In};
ghost use Rattle.vlt_sound_worlds.specs.Scopes.{IsFresh};
ghost use Rattle.vlt_sound_worlds.specs.Said.{GoTogether, IsKeyState, IsPieceOf};
ghost use Rattle.vlt_sound_calls.specs.ReturnGiven.{IsGiven};
ghost use Rattle.vlt_sound_calls.specs.ReturnHeads.{IsHostCase};
ghost use Rattle.vlt_sound_calls.specs.TakenOver.{AreTakenOver, AreNamed};

/// Where an answer gives a case, the objects of its keys are taken over in states that it says,
/// numbers and new objects are its payloads, and what comes after has a value of its type.
pub fn cases_are_given()
    ensures { (p : Program) (f g : Func) (c : Context) (h : HeldMap) (ids : Ids) (frame : Frame)
        (w : World) (os real : List Object) (keys states : List ℕ) (heap : ℕ) (following : HeldMap)
        (wider : Ids) (go : Option Value → Frame → World → Step) (ty : Ty) (t case : ℕ)
        (args : List ℕ) (d : CaseDecl) (ss : List ℕ) (ps : List Piece)
        → Agrees p f c h ids [] frame os →
        g.result ≡ Some ty →
        variant_in (Some ty) ≡ Some (record { type = t; args = args }) → case_at p t case ≡ Some d →
        IsHostCase p g t args d → AreNamed g keys frame os → GoTogether IsKeyState d.keys ss →
        GoTogether IsPieceOf d.payload ps →
        AreTakenOver (case_objects p g keys frame (case_with case ss ps)) os real →
        w.objects ≡ with_states (zip (case_objects p g keys frame (case_with case ss ps)) ss) real →
        ((v : Value) (w2 : World) →
        IsGiven p f c h ids frame w2.objects keys (Some ty) (Some v) →
        Safe (goes_to p f c following wider []) (go (Some v) frame w2)) →
        Safe (goes_to p f c following wider [])
        (with_result heap p g keys states (case_with case ss ps) frame w go) }
{}

/// Where a result is a reference to a new object, that is held under its key, and what comes after
/// has the reference.
pub fn references_are_given()
    ensures { (p : Program) (f : Func) (c : Context) (h next : HeldMap) (ids : Ids) (frame : Frame)
        (w : World) (keys : List ℕ) (heap : ℕ) (following : HeldMap) (wider : Ids)
        (go : Option Value → Frame → World → Step) (t k : ℕ) (args : List ℕ) (s : ℕ)
        (states : States) → Agrees p f c h ids [] frame w.objects → fields_of p t ≡ [] →
        IsTrue (all_states p t s) → IsTrue (states s) → IsFresh f c ids [] (stands_for keys k) →
        ((j : ℕ) → In j args → stands_for keys j ≡ stands_for keys k → ⊥) →
        key_type f (stands_for keys k) ≡ Some t → h (a_key (stands_for keys k)) ≡ absent →
        next (a_key (stands_for keys k)) ≡ held states →
        ((u : Tok) → (u ≡ a_key (stands_for keys k) → ⊥) → next u ≡ h u) →
        ((v : Value) (now : Frame) (w2 : World) →
        IsGiven p f c next ids now w2.objects keys (Some (tracked k t args)) (Some v) →
        Safe (goes_to p f c following wider []) (go (Some v) now w2)) →
        Safe (goes_to p f c following wider [])
        (with_fresh heap t (Some (binding s (stands_for keys k))) frame w go) }
{}
