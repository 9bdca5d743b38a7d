//! Laws on references.

ghost use Rattle.std.specs.Prelude.{ℕ, List};
ghost use Rattle.vlt_core.specs.Core.{Ty, Program};
ghost use Rattle.vlt_core.specs.Types.{with_keys, stands_for};
ghost use Rattle.vlt_meaning.specs.World.{Value, objects_in};
ghost use Rattle.vlt_sound_worlds.specs.Scene.{Scene, Grows, SameStates};
ghost use Rattle.vlt_sound_worlds.specs.Fits.{Names, Fits};

/// A value fits its type where what references stand for isn't lost and its own objects keep their states. It fits a type
/// with other keys just where it fits the type under what these stand for.
pub fn values_stay_fit()
    ensures kept { (p : Program) (s t : Scene) (names : Names) (ty : Ty) (v : Value) →
        Grows s t → SameStates s t (objects_in v) → Fits p s names ty v → Fits p t names ty v }
    ensures following { (p : Program) (s : Scene) (names : Names) (keys : List ℕ) (ty : Ty)
        (v : Value) → Fits p s names (with_keys keys ty) v →
        Fits p s (λ k. names (stands_for keys k)) ty v }
    ensures before { (p : Program) (s : Scene) (names : Names) (keys : List ℕ) (ty : Ty)
        (v : Value) → Fits p s (λ k. names (stands_for keys k)) ty v →
        Fits p s names (with_keys keys ty) v }
{}
