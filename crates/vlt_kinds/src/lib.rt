//! Kinds: a tree in, what it declares as core declarations or the least refusal of the rules on names, types and heads out.
//! Read `vlt_kinds_types/specs/Kinds.antt` first, then `specs/Tables.antt`.
//! Used by: the rules on bodies.
#![tactic(auto)]

ghost use Rattle.std.specs.Prelude.{◌≡◌, Ok, Err, IfOk};
ghost use Rattle.vlt_syntax.specs.View.{tree_of};
ghost use Rattle.vlt_syntax.specs.Grammar.{IsTree, language};
ghost use Rattle.vlt_kinds.specs.Tables.{kinds_told, OnRefused};
ghost use Rattle.vlt_kinds_types.specs.Seen.{kinds_seen};

mod error;
pub mod phases;

pub use error::KindError;
use std::alloc::Global;
use vlt_kinds_types::Kinds;
use vlt_syntax::Tree;

/// What a tree of the language declares, by the rules on names, on types and on heads.
///
/// # Errors
///
/// `Rule` with the rule that refuses and its place: of the first phase that refuses, the least place, and there the least
/// rule. `Memory` where there is too little.
pub fn tables<'a>(alloc: Global, tree: &'a Tree) -> Result<Kinds<'a>, KindError>
    requires { IsTree language (tree_of tree.now) }
    ensures ok { IfOk result (λ kinds. kinds_told (tree_of tree.now) ≡ Ok (kinds_seen kinds)) }
    ensures refused { OnRefused result (λ r. kinds_told (tree_of tree.now) ≡ Err r) }
{
    phases::kinds_of(alloc, tree.decls.as_slice())
}
