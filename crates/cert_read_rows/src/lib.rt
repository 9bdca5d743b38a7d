//! A value of JSON in; the row of a statement of a certificate out, or none.
//! Read `specs/Statements.antt` first, then of `cert_rows` `specs/Rows.antt`.
//! Used by: `cert_read_bodies`, which reads bodies.
#![tactic(auto)]

mod blocks;
mod exprs;
mod heads;
mod ids;
mod maps;
mod operands;
mod plain;
mod ready;
mod rows;

pub use blocks::{BlockRow, FocusRow, IfRow, SwitchRow, WhileRow};
pub use heads::{ArmHead, Head};
pub use plain::PlainRow;
pub use rows::{StmtRow, stmt_row};
