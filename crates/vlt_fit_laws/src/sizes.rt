//! Laws on the sets of declared states and on declared structs.

ghost use Rattle.std.specs.Prelude.{◌≡◌, ◌≤◌, ℕ, List, length};
ghost use Rattle.vlt_syntax.specs.Tree.{Decl};
ghost use Rattle.vlt_syntax.specs.Lists.{Each};
ghost use Rattle.vlt_syntax.specs.Grammar.{IsDecl, language};
ghost use Rattle.vlt_core.specs.Core.{Program};
ghost use Rattle.vlt_core.specs.Lookups.{fields_of};
ghost use Rattle.vlt_kinds_types.specs.Files.{file_of};
ghost use Rattle.vlt_kinds_decls.specs.Made.{core_types};
ghost use Rattle.vlt_sound.specs.Sizes.{HasSizes};

/// A program with the sets of declarations of the language has no set of more than 32 states.
pub fn declared_sets_are_small()
    ensures { (ds : List Decl) (p : Program) → Each (IsDecl language) ds →
        p.sets ≡ (file_of ds).sets → HasSizes p }
{}

/// A program with the types of declarations of the language has no struct of more than 32 fields.
pub fn declared_structs_are_small()
    ensures { (ds : List Decl) (p : Program) → Each (IsDecl language) ds →
        p.types ≡ core_types (file_of ds) ds → (t : ℕ) → length (fields_of p t) ≤ 32 }
{}
