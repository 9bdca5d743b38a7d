//! Laws on objects that the host has.

ghost use Rattle.std.specs.Prelude.{◌≡◌, ℕ, ◌<◌, IsTrue, List, [], ◌∷◌, ◌++◌, length, Option, Some};
ghost use Rattle.vlt_core.specs.Core.{States, Tok, a_key, Func, Program};
ghost use Rattle.vlt_core.specs.Lookups.{key_type, fields_of, all_states};
ghost use Rattle.vlt_core.specs.Maps.{HeldMap};
ghost use Rattle.vlt_core.specs.Maps as maps;
ghost use Rattle.vlt_core.specs.KindedScopes.{Ids};
ghost use Rattle.vlt_meaning.specs.World.{one, owned, held, loose, out, Object, Frame};
ghost use Rattle.vlt_meaning.specs.Objects.{with_changed_object, with_owner, with_state};
ghost use Rattle.vlt_sound_worlds.specs.Look.{look};
ghost use Rattle.vlt_sound_worlds.specs.Keys.{IsOfType};
ghost use Rattle.vlt_sound_worlds.specs.Agrees.{Handed, Context, scene, Agrees};
ghost use Rattle.vlt_sound_worlds.specs.Fits.{Fits};
ghost use Rattle.vlt_sound_worlds.specs.Sent.{AreSent};
ghost use Rattle.vlt_sound_worlds.specs.Hosted.{IsHosted};

/// What is so of a running function stays so where objects go to the host, and where one comes back under the key that
/// names it.
pub fn objects_go_out_and_come_back()
    ensures sent { (p : Program) (f : Func) (c : Context) (h then : HeldMap) (ids : Ids)
        (hand : List Handed) (frame : Frame) (os now : List Object) (ks xs : List ℕ) →
        Agrees p f c h ids hand frame os → AreSent frame h then hand ks xs os now →
        Agrees p f c then ids [] frame now }
    ensures back { (p : Program) (f : Func) (c : Context) (h then : HeldMap) (ids : Ids)
        (hand : List Handed) (frame : Frame) (os : List Object) (k n : ℕ) (states : States) →
        Agrees p f c h ids hand frame os → frame.keys k ≡ Some n → (look os n).owner ≡ out →
        n < length os → h (a_key k) ≡ maps.absent → then (a_key k) ≡ maps.held states →
        ((t : Tok) → (t ≡ a_key k → ⊥) → then t ≡ h t) → IsTrue (states (look os n).state) →
        IsOfType (key_type f k) (look os n).type →
        Agrees p f c then ids hand frame
        (with_changed_object n (with_owner (held frame.depth k)) os) }
{}

/// What is so of a running function stays so where the host makes an object, gives one another state, and hands one over.
pub fn hosts_change_their_own()
    ensures made { (p : Program) (f : Func) (c : Context) (h : HeldMap) (ids : Ids)
        (hand : List Handed) (frame : Frame) (os : List Object) (t s : ℕ)
        (heads : List (Option ℕ)) → Agrees p f c h ids hand frame os → fields_of p t ≡ [] →
        IsTrue (all_states p t s) → IsHosted p f c h ids hand frame os t s heads }
    ensures told { (p : Program) (f : Func) (c : Context) (h : HeldMap) (ids : Ids)
        (hand : List Handed) (frame : Frame) (os : List Object) (n s : ℕ) →
        Agrees p f c h ids hand frame os → (look os n).owner ≡ out → n < length os →
        IsTrue (all_states p (look os n).type s) →
        Agrees p f c h ids hand frame (with_changed_object n (with_state s) os) }
    ensures taken { (p : Program) (f : Func) (c : Context) (h : HeldMap) (ids : Ids)
        (hand : List Handed) (frame : Frame) (os : List Object) (n : ℕ) (x : Handed)
        (agrees : Agrees p f c h ids hand frame os) → (look os n).owner ≡ out → n < length os →
        x.value ≡ one (owned n) → Fits p (scene c os agrees.heads) frame.keys x.type x.value →
        Agrees p f c h ids (hand ++ x ∷ []) frame (with_changed_object n (with_owner loose) os) }
{}
