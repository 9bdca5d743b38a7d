//! A part of the parser: from a token's position a block with its statements, and the position after it.
//! Read `vlt_parser_exprs/specs/Promises.antt` first.
//! Used by: `vlt_parser`.
#![tactic(auto)]

mod stmts;

pub use stmts::block;
