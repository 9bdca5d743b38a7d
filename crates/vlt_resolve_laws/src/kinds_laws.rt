//! Laws of kinds and heads: nothing goes in and nothing comes out.
//! Read `specs/KindsLaws/Shapes.antt` first, then `specs/KindsLaws/Declared.antt` and `specs/KindsLaws/Heads.antt`.
//! Used by: the laws of elaboration. What the rules on names, types and heads leave breaks none of the rules on numbers that `breaks` asks.

ghost use Rattle.vlt_resolve_laws.specs.KindsLaws.Declared.{DeclarationsAreKinded, DeclarationsHaveStates, DeclarationsAreDescribed};
ghost use Rattle.vlt_resolve_laws.specs.KindsLaws.Heads.{HeadsAreKinded};
ghost use Rattle.vlt_resolve_laws.specs.KindsLaws.States.{HeadsHaveStates};

/// The rows of declared types break nothing.
pub fn declarations_are_kinded()
    ensures { DeclarationsAreKinded }
{}

/// Each set of states that a declared type says has one.
pub fn declarations_have_states()
    ensures { DeclarationsHaveStates }
{}

/// The declared types are to the rules by name what the file says of them.
pub fn declarations_are_described()
    ensures { DeclarationsAreDescribed }
{}

/// A function's own row breaks nothing that its head says.
pub fn heads_are_kinded()
    ensures { HeadsAreKinded }
{}

/// Each set of states that a head says has one.
pub fn heads_have_states()
    ensures { HeadsHaveStates }
{}
