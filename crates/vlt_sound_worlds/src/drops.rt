//! Laws on types whose objects may be dropped.

ghost use Rattle.std.specs.Prelude.{◌≡◌, ℕ, false};
ghost use Rattle.vlt_core.specs.Core.{Ty, Program};
ghost use Rattle.vlt_core.specs.Types.{owning_parts, is_undroppable_part, part_type};
ghost use Rattle.vlt_core_laws.specs.Parts.{IsAmong, IsFree};

/// What a type that may be dropped owns may be dropped, however deep it lies: the bounded search finds all.
pub fn parts_of_what_may_be_dropped()
    ensures { (p : Program) (t : ℕ) → IsFree p t → (ty : Ty) →
        IsAmong ty (owning_parts p t) → (is_undroppable_part p ty ≡ false) × IsFree p (part_type ty) }
{}
