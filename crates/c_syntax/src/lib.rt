//! The C subset: its programs as trees, their spelling and canonical text, and what makes a text one of it.
//! Read `specs/C.antt` first, then `specs/Spelling.antt`.
//! Used by: `c_printer::print_c` and `c_parser::read_unit`.
#![tactic(auto)]

mod program;
pub mod rules;
mod token;

pub use program::{CArg, CCall, CCell, CExpr, CFunc, CName, CPrim, CProgram, CResult, CStmt, CVar};
pub use token::{CSign, CWord};
