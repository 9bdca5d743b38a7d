//! Parts of the parser: from a token's position a list, type, expression, entry or case, and the position after.
//! Read `specs/Promises.antt` first.
//! Used by: `vlt_parser_simple`, `vlt_parser_stmts` and `vlt_parser`.
#![tactic(auto)]

mod error;
pub mod exprs;
pub mod headers;
pub mod lists;
pub mod parameters;
pub mod tokens;
pub mod types;

pub use error::ParseError;
