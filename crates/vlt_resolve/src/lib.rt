//! Elaboration: a tree and the table of its kinds in, the core program out, or the first rule or limit that refuses a body.
//! Read `Elaboration` of `vlt_elaboration` first, then its `Walk`.
//! Used by: the check, the runs and the lowering, which take the program that comes out.
#![tactic(auto)]

ghost use Rattle.std.specs.Prelude.{◌≡◌, Some, Ok, Err, IfOk};
ghost use Rattle.vlt_syntax.specs.View.{tree_of};
ghost use Rattle.vlt_core.specs.View.{program_of};
ghost use Rattle.vlt_kinds_types.specs.Seen.{kinds_seen};
ghost use Rattle.vlt_elaboration.specs.Elaboration.{elaborated, refused_of, walk_tree};
ghost use Rattle.vlt_resolve.specs.Refusals.{OnTold, error_seen};
ghost use Rattle.vlt_resolve_parts.specs.Refusals.{OnRefused};

mod error;
mod functions;
mod statements;
mod walk;

pub use error::ElabError;
use std::alloc::Global;
use vlt_base::{KEYS, VARIABLES};
use vlt_core::Program;
use vlt_kinds_types::{Kinds, Refusal};
use vlt_resolve_bodies::{copy_decls, copy_sets, main_of};
use vlt_resolve_exprs::limits::{TOO_MANY_KEYS, TOO_MANY_VARIABLES};
use vlt_resolve_parts::Stop;
use vlt_syntax::Tree;

fn program(alloc: Global, tree: &Tree, kinds: &Kinds<'_>) -> Result<Program, Stop>
    ensures ok { IfOk result (λ p. walk_tree (tree_of tree.now) (kinds_seen kinds.now)
        ≡ Ok (program_of p)) }
    ensures refused { OnRefused result (λ r. walk_tree (tree_of tree.now) (kinds_seen kinds.now)
        ≡ Err r) }
{
    let fns = functions::walk_decls(alloc, kinds, tree.decls.as_slice())?;
    let sets = copy_sets(alloc, kinds.file.sets.as_slice())?;
    let types = copy_decls(alloc, kinds.types.as_slice())?;
    let main = main_of(kinds.heads.as_slice())?;
    Ok(Program {
        sets,
        types,
        fns,
        main,
    })
}

fn error_of(refusal: Refusal) -> ElabError
    ensures { error_seen result ≡ Some (refused_of refusal) }
{
    match refusal.rule {
        TOO_MANY_VARIABLES => ElabError::Limit(VARIABLES),
        TOO_MANY_KEYS => ElabError::Limit(KEYS),
        rule => ElabError::Rule {
            rule,
            at: refusal.at,
        },
    }
}

/// Gives the core program of a tree whose declarations are of these kinds.
///
/// The bodies are read in the order of the text, and the first refusal is told. At one place limits go before rules, and
/// lesser numbers before greater ones.
pub fn elaborate(alloc: Global, tree: &Tree, kinds: &Kinds<'_>) -> Result<Program, ElabError>
    ensures ok { IfOk result (λ p. elaborated (tree_of tree.now) (kinds_seen kinds.now)
        ≡ Ok (program_of p)) }
    ensures refused { OnTold result (λ t. elaborated (tree_of tree.now) (kinds_seen kinds.now)
        ≡ Err t) }
{
    match program(alloc, tree, kinds) {
        Ok(made) => Ok(made),
        Err(Stop::Refused(refusal)) => Err(error_of(refusal)),
        Err(Stop::Memory) => Err(ElabError::Memory),
    }
}
