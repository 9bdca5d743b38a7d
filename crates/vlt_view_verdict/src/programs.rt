//! The core program of a view.

ghost use Rattle.std.specs.Prelude.{◌≡◌, Some, Ok, Err, IfOk};
ghost use Rattle.vlt_core.specs.View.{program_of};
ghost use Rattle.vlt_core.specs.declared.rules.TheConstants.{NO_MAIN};
ghost use Rattle.vlt_kinds_types.specs.Seen.{kinds_seen};
ghost use Rattle.vlt_elaboration.specs.Elaboration.{broken};
ghost use Rattle.vlt_resolve.specs.Refusals.{OnTold, error_seen};
ghost use Rattle.vlt_iface.specs.declared.places.TheConstants as p;
ghost use Rattle.vlt_iface.specs.Seen.{view_seen};
ghost use Rattle.vlt_views.specs.Views.{view_elaborated};

use std::alloc::Global;
use vlt_core::Program;
use vlt_iface::{RAISE, View};
use vlt_kinds_decls::has_main;
use vlt_kinds_types::{Kinds, rules};
use vlt_resolve::{ElabError, elaborate};

/// There is no function with a body that is named `main`: this is told at the module's first byte.
fn no_main() -> ElabError
    ensures { error_seen result ≡ Some (broken NO_MAIN p.RAISE) }
{
    ElabError::Rule {
        rule: rules::NO_MAIN,
        at: RAISE,
    }
}

/// The core program of a view whose declarations are of these kinds.
///
/// Where a main is wanted, the rule on it comes first. Then the bodies are read in the order of the view, and the first
/// refusal is told. At one place limits go before rules, and lesser numbers before greater ones.
///
/// # Errors
///
/// `Rule` with the rule that refuses and its place in the view, `Limit` with the limit that a function exceeds, `Memory` where
/// there is too little.
pub fn elaborate_view(
    alloc: Global,
    view: &View,
    kinds: &Kinds<'_>,
    with_main: bool,
) -> Result<Program, ElabError>
    ensures ok { IfOk result (λ p. view_elaborated (view_seen view.now) (kinds_seen kinds.now)
        with_main ≡ Ok (program_of p)) }
    ensures refused { OnTold result (λ t. view_elaborated (view_seen view.now)
        (kinds_seen kinds.now) with_main ≡ Err t) }
{
    if with_main && !has_main(view.tree.decls.as_slice()) {
        return Err(no_main());
    }
    elaborate(alloc, &view.tree, kinds)
}
