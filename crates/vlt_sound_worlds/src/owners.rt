//! Laws on owned objects.

ghost use Rattle.std.specs.Prelude.{ℕ, List};
ghost use Rattle.vlt_meaning.specs.World.{Owner};
ghost use Rattle.vlt_sound_worlds.specs.Members.{In, IsOnce};
ghost use Rattle.vlt_sound_worlds.specs.Placed.{IsOwned, IsPlaced, OwnsThese, Shifts, Takes, LetsGo};
ghost use Rattle.vlt_sound_worlds.specs.Roots.{Root, home};

/// Each owned object stays at one place: where objects go from a place to another one, come to a place from none, and
/// go from a place to none.
pub fn owned_objects_stay_at_one_place()
    ensures shifted { (old new : Root → List ℕ) (was now : ℕ →
        Owner) (from to : Root) (xs ys zs : List ℕ) → IsPlaced old home was →
        Shifts from to xs ys zs old new → OwnsThese xs (home to) was now →
        IsPlaced new home now }
    ensures taken { (old new : Root → List ℕ) (was now : ℕ →
        Owner) (to : Root) (xs zs : List ℕ) → IsPlaced old home was → Takes to xs zs old new →
        IsOnce xs → ((n : ℕ) → In n xs → (P : Root) → In n (old P) → ⊥) →
        OwnsThese xs (home to) was now → IsPlaced new home now }
    ensures let_go { (old new : Root → List ℕ) (was now : ℕ →
        Owner) (from : Root) (xs ys : List ℕ) (q : Owner) → IsPlaced old home was →
        (IsOwned q → ⊥) → LetsGo from xs ys old new → OwnsThese xs q was now →
        IsPlaced new home now }
{}
