//! Laws on changes of several objects at once.

ghost use Rattle.std.specs.Prelude.{◌≡◌, ℕ, Bool, List, Some, None};
ghost use Rattle.vlt_meaning.specs.World.{Owner, Object, gone, above};
ghost use Rattle.vlt_sound_worlds.specs.Look.{IsLive};
ghost use Rattle.vlt_sound_worlds.specs.Ranks.{IsRanked};
ghost use Rattle.vlt_sound_worlds.specs.Members.{In, IsOnce};
ghost use Rattle.vlt_sound_worlds.specs.Moved.{MovesThese, ArePassing, IsMoved};

/// Objects whose owners pass the test are moved, and nothing else changes; chains of owners stay without a cycle.
pub fn objects_move_together()
    ensures moved { (from : Owner → Bool) (to : Owner) (xs : List ℕ) (os : List Object) →
        IsOnce xs → ArePassing from xs os → IsMoved from to xs os }
    ensures roots { (old new : ℕ → Object) (xs : List ℕ) (q : Owner) →
        MovesThese xs q old new → above q ≡ None → (q ≡ gone → ⊥) → IsRanked old →
        IsRanked new }
    ensures children { (old new : ℕ → Object) (xs : List ℕ) (g : ℕ) (q : Owner) →
        MovesThese xs q old new → above q ≡ Some g → (In g xs → ⊥) → IsLive old g →
        above (old g).owner ≡ None → IsRanked old → IsRanked new }
{}
