//! Kinds of views: the view of an interface with a module in, its table of kinds out, or the first rule that refuses it.
//! Read `specs/Views.antt` first, which also says what the core program of a view is, then `Hidden`.
//! Used by: verdicts on views, and the laws on modules.
#![tactic(auto)]

ghost use Rattle.std.specs.Prelude.{◌≡◌, Ok, Err, IfOk};
ghost use Rattle.vlt_syntax.specs.View.{tree_of};
ghost use Rattle.vlt_syntax.specs.Grammar.{IsTree, language};
ghost use Rattle.vlt_kinds.specs.Tables.{OnRefused};
ghost use Rattle.vlt_kinds_types.specs.Seen.{kinds_seen};
ghost use Rattle.vlt_iface.specs.Seen.{view_seen};
ghost use Rattle.vlt_views.specs.Views.{view_kinds_told};

mod hidden;
mod tables;

use std::alloc::Global;
use vlt_iface::View;
use vlt_kinds::KindError;
use vlt_kinds_types::Kinds;

/// What a view declares, by the rules on names, on types and on heads. The rule on `main` isn't tested.
///
/// # Errors
///
/// `Rule` with the rule that refuses and its place in the view: of the first phase that refuses, the least place, and there
/// the least rule. `Memory` where there is too little.
pub fn tables_view<'a>(alloc: Global, view: &'a View) -> Result<Kinds<'a>, KindError>
    requires { IsTree language (tree_of view.now.tree) }
    ensures ok { IfOk result (λ kinds. view_kinds_told (view_seen view.now)
        ≡ Ok (kinds_seen kinds)) }
    ensures refused { OnRefused result (λ r. view_kinds_told (view_seen view.now) ≡ Err r) }
{
    tables::kinds_of(alloc, view.tree.decls.as_slice(), view.origins.as_slice())
}
