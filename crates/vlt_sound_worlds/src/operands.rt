//! Laws on operands.

ghost use Rattle.std.specs.Prelude.{List};
ghost use Rattle.vlt_core.specs.Core.{Ty, Operand};
ghost use Rattle.vlt_sound_worlds.specs.Handed.{IsHandedOver, AreHandedOver};

/// An operand for a place of a type, and operands for places of as many types: they end in no fault, and after them values
/// that fit these types are handed over.
pub fn operands_are_handed_over()
    ensures one { (o : Operand) (ty : Ty) → IsHandedOver o ty }
    ensures all { (os : List Operand) (types : List Ty) → AreHandedOver os types }
{}
