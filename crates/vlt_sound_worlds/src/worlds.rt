//! Laws on the objects of a world.

ghost use Rattle.std.specs.Prelude.{◌≡◌, ℕ, List, ◌<◌, length, ◌∷◌, []};
ghost use Rattle.vlt_meaning.specs.World.{Object};
ghost use Rattle.vlt_meaning.specs.Objects.{is_under, objects_after_release};
ghost use Rattle.vlt_sound_worlds.specs.Look.{look, EndsThose};
ghost use Rattle.vlt_sound_worlds.specs.Ranks.{IsRanked};
ghost use Rattle.vlt_sound_worlds.specs.Below.{IsBelowTest};

/// A release ends the object and what is below it, by a test that finds each chain of owners, and chains stay without
/// a cycle.
pub fn released_ends_below()
    ensures test { (os : List Object) (n : ℕ) → n < length os →
        IsBelowTest (look os) n (is_under os (n ∷ [])) }
    ensures ends { (os : List Object) (n : ℕ) →
        EndsThose (is_under os (n ∷ [])) (look os) (look (objects_after_release n os)) }
    ensures ranks { (os : List Object) (n : ℕ) → n < length os →
        IsRanked (look os) → IsRanked (look (objects_after_release n os)) }
{}
