//! The tokens of a text in, the tree that they spell out, or why there is none.
//! Read `vlt_syntax/specs/Grammar.antt` (IsPlacedTreeOf) and `Refusals.antt` (IsRefusal) first.
//! Used by: the replies to all texts. By `vlt_syntax_laws` a text has a tree or a refusal, and never both.
#![tactic(auto)]

ghost use Rattle.std.specs.Prelude.{IfOk, IfErr};
ghost use Rattle.vlt_tokens.specs.Lexemes.{lexemes};
ghost use Rattle.vlt_syntax.specs.Grammar.{IsPlacedTreeOf};
ghost use Rattle.vlt_syntax.specs.View.{tree_of};
ghost use Rattle.vlt_parser.specs.Refusals.{IsRefusedFor};

mod decls;
mod heads;
mod sets;

use std::alloc::Global;
pub use vlt_parser_exprs::ParseError;
use vlt_syntax::Tree;
use vlt_tokens::Token;

/// Reads all of the tokens as one file.
///
/// `Unexpected` has the first byte of the token with which no tree goes on, and `EndOfText` says that trees go on after the last
/// one. `Limit` has the number of the limit, from 4 to 9 or 12, that is exceeded. `Memory` says that there was none for the tree,
/// and leaves open what the tokens are.
pub fn parse(alloc: Global, tokens: &[Token<'_>]) -> Result<Tree, ParseError>
    // The tokens are those of the tree, which is one of the language, and its parts stand where they do in the text.
    ensures ok { IfOk result (λ t. IsPlacedTreeOf (lexemes tokens.now) (tree_of t)) }
    // Others are refused for the reason that the grammar gives: the first token with which no tree goes on, or none within a limit,
    // or that the text ends too soon.
    ensures refused { IfErr result (λ e. IsRefusedFor (lexemes tokens.now) e) }
{
    let decls = decls::decls(alloc, tokens)?;
    Ok(Tree { decls })
}
