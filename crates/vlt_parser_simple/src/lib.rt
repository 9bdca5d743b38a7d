//! Parts of the parser: from a token's position a right side or a statement without blocks, and the position after.
//! Read `vlt_parser_exprs/specs/Promises.antt` first.
//! Used by: `vlt_parser_stmts`.
#![tactic(auto)]

mod rights;
pub mod simple;
