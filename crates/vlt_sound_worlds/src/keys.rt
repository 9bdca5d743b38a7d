//! Laws on keys.

ghost use Rattle.std.specs.Prelude.{◌≡◌, ℕ, Option, Some};
ghost use Rattle.vlt_core.specs.Maps.{Status, absent};
ghost use Rattle.vlt_meaning.specs.World.{Object};
ghost use Rattle.vlt_sound_worlds.specs.Keys.{KeyAgrees, IsUnder, SameUnder};

/// What is under a key is what the key names, and nothing is under a key that is absent.
pub fn keys_name_what_is_under_them()
    ensures named { (type name : Option ℕ) (status : Status) (d k : ℕ) (os : ℕ → Object) →
        KeyAgrees type status d k name os → (m : ℕ) → IsUnder d k (os m).owner → name ≡ Some m }
    ensures none { (type name : Option ℕ) (status : Status) (d k : ℕ) (os : ℕ → Object) →
        status ≡ absent → KeyAgrees type status d k name os → (m : ℕ) → IsUnder d k (os m).owner
        → ⊥ }
    ensures kept { (type name : Option ℕ) (status : Status) (d k : ℕ) (os changed : ℕ →
        Object) → SameUnder d k os changed → KeyAgrees type status d k name os →
        KeyAgrees type status d k name changed }
{}
