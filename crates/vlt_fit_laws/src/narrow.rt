//! A law on the externals that a text declares.

ghost use Rattle.std.specs.Prelude.{List};
ghost use Rattle.vlt_syntax.specs.Tree.{Decl};
ghost use Rattle.vlt_core.specs.Core.{Program};
ghost use Rattle.vlt_resolve_laws.specs.KindsLaws.Declared.{HasDeclared, IsPassed};
ghost use Rattle.vlt_sound.specs.Narrow.{HasNarrowHeads};
ghost use Rattle.vlt_fit_laws.specs.Externals.{HasExternals};

/// Where types and externals are those of declarations of the language, answers give states below
/// 32 alone.
pub fn declared_externals_are_narrow()
    ensures { (ds : List Decl) (p : Program) → IsPassed ds → HasDeclared ds p →
        HasExternals ds p → HasNarrowHeads p }
{}
