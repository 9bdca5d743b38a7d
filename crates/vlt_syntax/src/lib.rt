//! The tree of a source text, its spelling as tokens, and what makes it one of the language.
//! Read `specs/Tree.antt` first, then `Grammar.antt` and `Refusals.antt`: what the grammar refuses, and where.
//! Used by: parser, printer, and all that is said of names and types.
#![tactic(auto)]

mod name_text;
mod tree;

pub use name_text::NameText;
pub use tree::{
    Arm, Block, Build, Call, Case, Decl, Else, Entry, Expr, Field, Head, HeaderKey, If, Init,
    KeyStates, Name, Named, Operands, Parameter, ResultType, Returned, Right, SetState, States,
    Stmt, Tree, Ty,
};
