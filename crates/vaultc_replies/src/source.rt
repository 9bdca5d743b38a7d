//! From bytes to a tree.

ghost use Rattle.std.specs.Prelude.{IfOk, IfErr, IfSome};
ghost use Rattle.vlt_syntax.specs.View.{tree_of};
ghost use Rattle.vlt_fit_laws.specs.Fit.{IsTextTree};
ghost use Rattle.vaultc_runs.specs.Texts.{IsTooLong, IsTextOf, AreRefused};
ghost use Rattle.vaultc_runs.specs.Shown.{refusal_of};

use std::alloc::Global;
use vaultc_runs::TextError;
use vlt_fit_laws::texts_have_text_trees;
use vlt_lexer::lex;
use vlt_parser::parse;
use vlt_syntax::Tree;

/// The tree that the bytes spell.
pub fn read_tree(alloc: Global, bytes: &[u8]) -> Result<Tree, TextError>
    requires { ¬ (IsTooLong bytes.now) }
    ensures ok { IfOk result (λ t. IsTextOf (tree_of t) bytes.now) }
    ensures tree { IfOk result (λ t. IsTextTree (tree_of t)) }
    ensures refused { IfErr result (λ e. IfSome (refusal_of e) (AreRefused bytes.now)) }
{
    texts_have_text_trees();
    let tokens = lex(alloc, bytes)?;
    let tree = parse(alloc, tokens.as_slice())?;
    Ok(tree)
}
